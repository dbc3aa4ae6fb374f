//! Text behind a mark.

ghost use Rattle.std.specs.Prelude.{◌≡◌, ◌<◌, option_map};
ghost use Rattle.tr_expr.specs.Texts as spec;

/// What follows the mark, if the text begins with it.
pub(crate) fn after(text: &str, mark: char) -> Option<&str>
    requires { mark < 128 }
    ensures { option_map (λ x. x.now) result ≡ spec.after mark text.now }
{
    text.strip_prefix(mark)
}
