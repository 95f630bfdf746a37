// The rules for settings that the steps of a script give.
use crate::step::Step;
use model::{Setup, Tenant};

// The bytes of a rule, and the places of the table.
pub(crate) const RULE: usize = 216;

const PLACES: usize = 32;

// No rules, and nothing else that a start-up is given.
pub(crate) fn none() -> Setup {
    let modem = Tenant {
        share: 0,
        reserve: 0,
        vendor: [0; 16],
    };
    Setup {
        custom: 0,
        reserve: 0,
        records: 0,
        share: 0,
        modem,
        rules: 0,
        limits: [0; RULE * PLACES],
    }
}

// The rules at a step: those given before, with the one that the step gives in its place of the table, where there is such a place.
pub(crate) fn given(step: Step<'_>, before: Setup) -> Setup {
    let Step::Rule { rules, place, rule } = step else {
        return before;
    };
    let place = usize::from(place);
    let mut limits = before.limits;
    if place < PLACES {
        output::put_fill(&mut limits, RULE * place, 0, RULE);
        output::put_bytes(&mut limits, RULE * place, rule);
    }
    Setup {
        rules,
        limits,
        ..before
    }
}
