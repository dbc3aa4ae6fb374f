//! Which failures are tried, where not all of them may be: those first that are likely to show something new.

ghost use Rattle.std.specs.Prelude.{◌≡◌, ◌==◌, ◌++◌, [], ◌∷◌, cond, length, take, IfOk, OnOk};
ghost use Rattle.std.specs.List.{flat_map};
ghost use Rattle.sweep_command.specs.Choosing.{case_at, is_kind, place_in, met_with, met_after, numbers_of, kind_of};
ghost use Rattle.sweep_command.specs.Choosing.{kinds_of, by_novelty, AreChosen};

use std::alloc::{AllocError, Global};
use std::collections::BTreeMap;
use sweep_report::sites::{place_of, site_of};
use sweep_report::traced::TracedCalls;
use sweep_report::untried::SiteCalls;
use sweep_rows::{Case, Reached};
use turn_orders::novel;

/// Cases of one kind have the same error, and calls of one site: each site has a number.
#[derive(Clone, Copy, Debug, PartialEq, Eq)]
pub struct Kind {
    pub error: u16,
    pub site: usize,
}

/// Kinds by numbers, of things of some kinds.
#[derive(Drop)]
pub struct Numbered {
    pub numbers: Vec<usize>,
    /// The kinds, each once.
    pub met: Vec<Kind>,
}

/// The number of a text among those that were met.
fn number_of(met: &mut BTreeMap<String, usize>, text: String) -> Result<usize, AllocError> {
    if let Some(number) = met.get(text.as_str()) {
        return Ok(*number);
    }
    let number = met.len();
    met.insert(text, number)?;
    Ok(number)
}

/// The site of a case's call.
fn site(
    alloc: Global,
    reference: &Reached,
    calls: &TracedCalls,
    case: &Case,
) -> Result<String, AllocError> {
    let place = place_of(alloc, calls, reference, &case.occurrence)?;
    site_of(alloc, &place)
}

/// The numbers of the sites of these cases' calls.
fn sites_of(
    alloc: Global,
    reference: &Reached,
    calls: &TracedCalls,
    cases: &[Case],
) -> Result<Vec<usize>, AllocError>
    ensures { IfOk result (λ sites. length sites.items ≡ length cases.now) }
{
    let mut met = BTreeMap::new(alloc);
    let mut sites = Vec::new(alloc);
    let mut left = cases;
    while let Some((case, rest)) = left.split_first() {
        let text = site(alloc, reference, calls, case)?;
        sites.push(number_of(&mut met, text)?)?;
        left = rest;
    }
    Ok(sites)
}

fn is_kind(one: Kind, other: Kind) -> bool
    ensures { result ≡ is_kind one other }
{
    one.error == other.error && one.site == other.site
}

/// The place of a kind among those that were met; how many these are, where it isn't one of them.
fn place_in(met: &[Kind], kind: Kind) -> usize
    ensures { result ≡ place_in met.now kind }
{
    let mut place: usize = 0;
    let mut left = met;
    while let Some((one, rest)) = left.split_first() {
        if is_kind(*one, kind) {
            return place;
        }
        place += 1;
        left = rest;
    }
    place
}

/// Adds a kind that is met first: its place is behind all others.
fn add_kind(met: &mut Vec<Kind>, kind: Kind, place: usize) -> Result<(), AllocError>
    ensures { OnOk result (met.new.items
        ≡ cond (place == length met.old.items) (met.old.items ++ kind ∷ []) met.old.items) }
{
    if place == met.len() {
        met.push(kind)?;
    }
    Ok(())
}

/// Meets a kind: its number is the place that it has or gets.
fn meet(numbered: &mut Numbered, kind: Kind) -> Result<(), AllocError>
    ensures numbers { OnOk result (numbered.new.numbers.items
        ≡ numbered.old.numbers.items ++ place_in numbered.old.met.items kind ∷ []) }
    ensures met { OnOk result (numbered.new.met.items ≡ met_with numbered.old.met.items kind) }
{
    let place = place_in(numbered.met.as_slice(), kind);
    add_kind(&mut numbered.met, kind, place)?;
    numbered.numbers.push(place)?;
    Ok(())
}

/// The kind of a case whose call has this site.
fn kind_of(case: &Case, site: usize) -> Kind
    ensures { result ≡ kind_of case.now site }
{
    Kind {
        error: case.error.number,
        site,
    }
}

/// The kinds of these cases, whose calls have these sites.
fn number_kinds(alloc: Global, cases: &[Case], sites: &[usize]) -> Result<Numbered, AllocError>
    ensures numbers { IfOk result (λ n. n.numbers.items ≡ numbers_of [] (kinds_of cases.now sites.now)) }
    ensures met { IfOk result (λ n. n.met.items ≡ met_after [] (kinds_of cases.now sites.now)) }
{
    let mut numbered = Numbered {
        numbers: Vec::new(alloc),
        met: Vec::new(alloc),
    };
    let mut left = cases;
    let mut others = sites;
    while let Some((case, rest)) = left.split_first() {
        let Some((site, more)) = others.split_first() else {
            return Ok(numbered);
        };
        meet(&mut numbered, kind_of(case, *site))?;
        left = rest;
        others = more;
    }
    Ok(numbered)
}

/// The call is not that of the case before.
fn is_another(before: Option<&Case>, case: &Case) -> bool {
    before.map_or(true, |before| before.occurrence != case.occurrence)
}

/// How many calls each site has.
pub fn site_calls(
    alloc: Global,
    reference: &Reached,
    calls: &TracedCalls,
    cases: &[Case],
) -> Result<Vec<SiteCalls>, AllocError> {
    let mut sites: Vec<SiteCalls> = Vec::new(alloc);
    let mut met = BTreeMap::new(alloc);
    let mut before = None;
    for case in cases {
        if is_another(before, case) {
            let text = site(alloc, reference, calls, case)?;
            let number = number_of(&mut met, format!(in alloc; "{text}")?)?;
            match sites.get_mut(number) {
                Some(site) => site.calls = site.calls.saturating_add(1),
                None => sites.push(SiteCalls {
                    site: text,
                    calls: 1,
                })?,
            }
        }
        before = Some(case);
    }
    Ok(sites)
}

fn add_case(placed: &mut Vec<Case>, cases: &[Case], place: usize) -> Result<(), AllocError>
    ensures { OnOk result (placed.new.items ≡ placed.old.items ++ case_at cases.now place) }
{
    if let Some(case) = cases.get(place) {
        placed.push(*case)?;
    }
    Ok(())
}

/// The cases in these places.
fn in_places(alloc: Global, places: &[usize], cases: &[Case]) -> Result<Vec<Case>, AllocError>
    ensures { IfOk result (λ r. r.items ≡ flat_map (case_at cases.now) places.now) }
{
    let mut placed = Vec::new(alloc);
    let mut left = places;
    while let Some((place, rest)) = left.split_first() {
        add_case(&mut placed, cases, *place)?;
        left = rest;
    }
    Ok(placed)
}

/// The cases in the order of what they may show: of each kind the first, then of each the last, and then the middles of
/// gaps.
fn by_novelty(alloc: Global, cases: &[Case], sites: &[usize]) -> Result<Vec<Case>, AllocError>
    ensures { IfOk result (λ r. r.items ≡ by_novelty cases.now sites.now) }
{
    let Numbered { numbers, met } = number_kinds(alloc, cases, sites)?;
    let places = novel(alloc, numbers.as_slice(), met.len())?;
    let placed = in_places(alloc, places.as_slice(), cases)?;
    Ok(placed)
}

/// The first of these, so many at most.
fn first_of(cases: Vec<Case>, most: usize) -> Vec<Case>
    ensures { result.items ≡ take most cases.items }
{
    let mut first = cases;
    first.truncate(most);
    first
}

/// The cases that are tried, if so many are at most.
pub fn chosen(
    alloc: Global,
    most: Option<usize>,
    reference: &Reached,
    calls: &TracedCalls,
    cases: &[Case],
) -> Result<Vec<Case>, AllocError>
    ensures { IfOk result (λ r. AreChosen most cases.now r.items) }
{
    let Some(most) = most else {
        let mut all = Vec::new(alloc);
        all.extend_from_slice(cases)?;
        return Ok(all);
    };
    let sites = sites_of(alloc, reference, calls, cases)?;
    let all = by_novelty(alloc, cases, sites.as_slice())?;
    Ok(first_of(all, most))
}
