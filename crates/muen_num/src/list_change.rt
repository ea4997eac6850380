//! Laws of changes: functions that do nothing, whose contracts say them.
ghost use Rattle.muen_num.specs.ListChangeLaws.{TheElementChanges, OtherElementsStay, ListLengthsStay, ChangesJoin};

/// A change of one element is found at its number, and nowhere else. It keeps how many there are, and
/// two changes of one element are one.
pub fn a_change_is_found<X>()
    ensures same { TheElementChanges X }
    ensures other { OtherElementsStay X }
    ensures length { ListLengthsStay X }
    ensures join { ChangesJoin X }
{}
