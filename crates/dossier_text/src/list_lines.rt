ghost use Rattle.std.specs.Prelude.{◌≡◌, ◌<◌, ◌+◌, ◌^◌, length, IfOk, OnOk};
ghost use Rattle.dossier_text.specs.Faults.{Gives};
ghost use Rattle.dossier_text.specs.inside.ListReading.{item_at, items_at};

use crate::fault::DossierFault;
use crate::steps::{keep, next_line};
use item_lists::Items;
use line_text::Lines;
use std::alloc::Global;

/// What has a line of its own in one of the dossier's lists.
pub trait LineItem: Sized + Drop {
    ghost use Rattle.std.specs.Prelude.{◌≡◌, ◌<◌, ◌+◌, ◌^◌, ℕ, List, Result};
    ghost use Rattle.dossier_text.specs.declared.fault.DossierFault.{DossierFault};
    ghost use Rattle.dossier_text.specs.Faults.{Gives};

    /// The item that the text of the line of this number says, where it has this index in its list.
    ghost said: { ℕ → ℕ → List ℕ → Result Self DossierFault };

    /// Reads the item from the text of its line.
    fn read(alloc: Global, line: u32, index: u32, text: &[u8]) -> Result<Self, DossierFault>
        requires { index + 1 < 2 ^ 32 }
        ensures { Gives (λ item. item) result (said line index text.now) };
}

/// The item of this index, in the next line.
#[tactic(auto, unfolding(crate::specs::inside::ListReading::item_at))]
fn item_at<X: LineItem>(alloc: Global, index: u32, lines: &mut Lines<'_>) -> Result<X, DossierFault>
    requires place { lines.old.number + 1 < 2 ^ 32 }
    requires index { index + 1 < 2 ^ 32 }
    ensures exact { Gives (λ item. (item, lines.new.rest)) result
        (item_at X.said lines.old.number index lines.old.rest) }
    ensures next { OnOk result (lines.new.number ≡ lines.old.number + 1) }
{
    let line = lines.number();
    let text = next_line(lines)?;
    X::read(alloc, line, index, text)
}

/// So many items, each in a line.
pub fn items_at<X: LineItem>(
    alloc: Global,
    count: u32,
    lines: &mut Lines<'_>,
) -> Result<Items<X>, DossierFault>
    requires { lines.old.number + count < 2 ^ 32 }
    ensures exact { Gives (λ items. (items, lines.new.rest)) result
        (items_at X.said lines.old.number count lines.old.rest) }
    ensures all { IfOk result (λ items. length items ≡ count) }
    ensures next { OnOk result (lines.new.number ≡ lines.old.number + count) }
{
    let mut items = Items::new(alloc);
    for index in 0..count {
        let item = item_at(alloc, index, lines)?;
        keep(&mut items, item)?;
    }
    Ok(items)
}
