ghost use Rattle.row_forms.specs.Laws.{ColumnsAreFew, TermsAreOnce, TermsAreOfColumns, TermsAreSmall, FewPiecesReachLittle};
ghost use Rattle.row_forms.specs.Laws.{TermsComeToPieces, RowsHoldByPieces};
ghost use Rattle.row_forms.specs.Laws.{FiguresAreOfOperations, OneSlotIsItsFigure, FirstSlotsAreTheirFigures, WaitIsTheVessels};

use plant_model::Plant;

/// What is so of rows made of pieces, for whoever reasons about them: a call does nothing and brings the laws.
pub fn row_form_laws(plant: &Plant)
    ensures few { ColumnsAreFew plant.now }
    ensures once { TermsAreOnce plant.now }
    ensures columns { TermsAreOfColumns plant.now }
    ensures small { TermsAreSmall plant.now }
    ensures reach { FewPiecesReachLittle }
    ensures value { TermsComeToPieces plant.now }
    ensures rows { RowsHoldByPieces plant.now }

    ensures figures { FiguresAreOfOperations plant.now }
    ensures one_slot { OneSlotIsItsFigure plant.now }
    ensures first_slots { FirstSlotsAreTheirFigures plant.now }
    ensures wait { WaitIsTheVessels plant.now }
{
    plant.sound();
}
