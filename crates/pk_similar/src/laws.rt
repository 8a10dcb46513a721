//! What similarity decides: the theorem that keys over completions hold exactly where no two rows are
//! similar, and what stands beside it. A law is a contract; its function does nothing.

ghost use Rattle.pk_similar.specs.Laws.{CertainIsNoWeakPair, PossibleIsNoStrongPair, CertainIsPossible, WeakIsMayAgree, StrongIsMustAgree, FillCompletesWeak, FillKeepsStrong, WeakIsSymmetric, StrongIsSymmetric, StrongIsWeak, WeakMeetsNoneApart, StrongMeetsNoneNotSame, NoPairStands, PairIsFound};
ghost use Rattle.pk_similar.specs.Examples.{ExamplesAreComputed};

/// A certain key holds, in every completion of a table, exactly where no two distinct places have
/// weakly similar rows. On no columns both say that there is at most one row.
pub fn certain_keys_have_no_weak_pair()
    ensures { CertainIsNoWeakPair }
{}

/// A possible key holds, in some completion of a table, exactly where no two distinct places have
/// strongly similar rows. On no columns both say that there is at most one row.
pub fn possible_keys_have_no_strong_pair()
    ensures { PossibleIsNoStrongPair }
{}

/// A possible key holds where the certain key over the same columns does.
pub fn certain_keys_are_possible()
    ensures { CertainIsPossible }
{}

/// Two rows are weakly similar exactly where some completion of them has them agree.
pub fn weak_rows_may_agree()
    ensures { WeakIsMayAgree }
{}

/// Two rows are strongly similar exactly where every completion of them has them agree.
pub fn strong_rows_must_agree()
    ensures { StrongIsMustAgree }
{}

/// `fill` gives weakly similar rows values that both have in some completion, and strongly similar rows
/// those that both have already. So a broken key always comes with two rows and their values.
pub fn fill_gives_what_is_common()
    ensures weak { FillCompletesWeak }
    ensures strong { FillKeepsStrong }
{}

/// Similarity doesn't ask which row is named first, and strongly similar rows are weakly similar.
pub fn similarity_is_symmetric()
    ensures weak { WeakIsSymmetric }
    ensures strong { StrongIsSymmetric }
    ensures stronger { StrongIsWeak }
{}

/// On a part of some columns, rows are weakly similar exactly where `apart` gives none of that part, and
/// strongly similar exactly where `not_same` gives none of it.
pub fn similar_rows_meet_no_difference()
    ensures weak { WeakMeetsNoneApart }
    ensures strong { StrongMeetsNoneNotSame }
{}

/// Where no two rows are related, each earlier place is related to no later one; else two places are.
pub fn pairs_stand_at_places()
    ensures stands { NoPairStands }
    ensures found { PairIsFound }
{}

/// Worked pairs of contacts with missing parts, and what their table's keys come to.
pub fn examples_are_computed()
    ensures { ExamplesAreComputed }
{}
