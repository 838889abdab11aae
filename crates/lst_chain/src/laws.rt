//! Laws of column values, proved for every type of version. The functions do nothing.

ghost use Rattle.lst_chain.specs.Chain.{ActsAreTaken, AddsOne, PassedChangeNothing, NewestDecides, CellsAreRead};

use crate::Version;

/// What the taken versions of a chain did, oldest first, is in the order of their age.
pub fn acts_in_order<V, A>()
    ensures { ActsAreTaken V A }
{}

/// What one more version, the newest, changes in a column; that versions which are hidden or don't
/// hold the column change nothing; and that the newest visible version which holds it decides.
pub fn column_laws<V: Version>()
    ensures one_more { AddsOne V.status V.explicit }
    ensures passed { PassedChangeNothing V.status V.explicit }
    ensures newest { NewestDecides V.status V.explicit }
{}

/// Where versions hold cells that may be null, the value of a column below 8 and that of its null
/// flag, 8 columns on, are the cell that the visible versions leave.
pub fn nullable_columns<V: Version>()
    ensures { CellsAreRead V.status V.explicit }
{}
