ghost use Rattle.std.specs.Prelude.{◌≡◌, ◌⊎◌};
ghost use Rattle.number_laws.specs.Missing.{greater};
ghost use Rattle.plan_build.specs.Built.{found_margin};

use replay_core::Planned;

/// The plan of the greater margin.
pub fn better(best: Option<Planned>, found: Option<Planned>) -> Option<Planned>
    ensures margin { found_margin result ≡ greater (found_margin best) (found_margin found) }
    ensures one { (result ≡ best) ⊎ (result ≡ found) }
{
    match (best, found) {
        (Some(old), Some(new)) => Some(if old.margin < new.margin { new } else { old }),
        (None, found) => found,
        (best, None) => best,
    }
}
