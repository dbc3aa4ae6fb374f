//! Numbers in a text.

ghost use Rattle.std.specs.Prelude.{◌≡◌, ◌≤◌, IfSome};
ghost use Rattle.tr_expr.specs.Numbers as spec;

/// The number that the digits spell, if it lies in the range. A sign is no digit.
pub(crate) fn number(text: &str, radix: u32, low: u64, high: u64) -> Option<u64>
    requires least { 2 ≤ radix }
    requires most { radix ≤ 36 }
    ensures value { result ≡ spec.number radix low high text.now }
    ensures range { IfSome result (λ n. (low ≤ n) × (n ≤ high)) }
{
    if text.starts_with('+') {
        return None;
    }
    match u64::from_str_radix(text, radix) {
        Ok(n) => (low <= n && n <= high).then_some(n),
        Err(_) => None,
    }
}
