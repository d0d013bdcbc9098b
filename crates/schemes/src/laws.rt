// What holds of every run of calls of sign, stated on functions so that each law is proved.
// The statements are in specs/Runs.antt.
ghost use Rattle.schemes.specs.Runs.{Earned, Lasting, RegisterEarned};

use super::Scheme;

// Whatever is good after some calls was good before them, or one of them signed it.
pub fn good_was_signed<S: Scheme>(_scheme: &S)
    ensures { Earned {S = S} S.good S.spent }
{}

// Whatever is good stays good.
pub fn good_stays<S: Scheme>(_scheme: &S)
    ensures { Lasting {S = S} S.good S.spent }
{}

// In a register that began empty, whatever is good was signed since.
pub fn register_good_was_signed()
    ensures { RegisterEarned }
{}
