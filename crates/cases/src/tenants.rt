// The tenants that the steps of a script give.
use crate::step::Step;
use model::{Session, Setup};

// The region of an image but for its header, L - 28: an image has L twice and a block.
fn whole(image: &[u8]) -> u32 {
    (image.len().min(65536) / 2).saturating_sub(2076) as u32
}

// Our share at a step: the one given before, and by the image where none is.
fn share(shared: bool, image: &[u8], before: u32) -> u32 {
    if shared { before } else { whole(image) }
}

// Whether a step, or one before it, gives tenants.
pub(crate) fn shared(step: Step<'_>, before: bool) -> bool {
    before || matches!(step, Step::Tenants { .. })
}

// What start-ups are given at a step.
pub(crate) fn given(step: Step<'_>, shared: bool, image: &[u8], before: Setup) -> Setup {
    match step {
        Step::Tenants { share, modem } => Setup {
            share,
            modem,
            ..before
        },
        _ => Setup {
            share: share(shared, image, before.share),
            ..before
        },
    }
}

// The session at a step: as it was, and with our share by the image where none is given.
pub(crate) fn held(shared: bool, image: &[u8], before: Session) -> Session {
    let mut session = before;
    session.setup.share = share(shared, image, before.setup.share);
    session
}
