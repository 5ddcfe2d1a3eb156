ghost use Rattle.slot_box.specs.Laws.{EntriesAreLive, OnlyPointsArePoints, RootsAreBoxes, RootSlotsMayIdle, RootSlotsMayRun, PartsSharePoints, PartsAreBoxes, PartsShareCounts, LeavesCoverRoots, NodeBoxesStayWithin, LeavesSharePoints, LeavesAreAtMostPoints, ListsAreTrees, OpenLeavesCost};

/// The laws of boxes and root boxes, for whoever reasons about them: a call does nothing and brings them.
pub fn box_laws()
    ensures live { EntriesAreLive }
    ensures only { OnlyPointsArePoints }
    ensures roots { RootsAreBoxes }
    ensures idle { RootSlotsMayIdle }
    ensures runs { RootSlotsMayRun }
{}

/// The laws of lawful splits: a call does nothing and brings them.
pub fn split_laws()
    ensures points { PartsSharePoints }
    ensures boxes { PartsAreBoxes }
    ensures counts { PartsShareCounts }
{}

/// The laws of search trees: a call does nothing and brings them.
pub fn tree_laws()
    ensures cover { LeavesCoverRoots }
    ensures within { NodeBoxesStayWithin }
    ensures share { LeavesSharePoints }
    ensures few { LeavesAreAtMostPoints }
{}

/// The laws of search trees that are lists of nodes: a call does nothing and brings them.
pub fn node_list_laws()
    ensures shape { ListsAreTrees }
    ensures cost { OpenLeavesCost }
{}
