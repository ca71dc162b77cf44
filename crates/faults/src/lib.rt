// The smallest of the places of faults, None where there is none.
#![tactic(auto)]

ghost use Rattle.std.specs.Prelude.{◌≡◌, not, Some};
ghost use Rattle.std.specs.Bool.{then_some};
ghost use Rattle.std.specs.Option.{option_or};
ghost use Rattle.faults.specs.Soonest.{sooner, matter};

// The sooner of two.
pub fn sooner_of(a: Option<usize>, b: Option<usize>) -> Option<usize>
    ensures { result ≡ sooner a b }
{
    match (a, b) {
        (Some(p), Some(q)) => Some(p.min(q)),
        _ => a.or(b),
    }
}

// What a fault at a place makes of the soonest so far.
pub fn with_fault(best: Option<usize>, place: u16) -> Option<usize>
    ensures { result ≡ sooner best (Some place) }
{
    sooner_of(best, Some(place as usize))
}

// Whether a fault at a place would be sooner than the soonest so far.
pub fn matters(best: Option<usize>, place: u16) -> bool
    ensures { result ≡ matter best place }
{
    best.is_none_or(|soonest| (place as usize) < soonest)
}

// The faults of a rule: those of its parts, else its own one at a place, where its test fails.
pub fn of_rule(parts: Option<usize>, holds: bool, place: u16) -> Option<usize>
    ensures { result ≡ option_or parts (then_some (not holds) place) }
{
    parts.or((!holds).then_some(place as usize))
}
