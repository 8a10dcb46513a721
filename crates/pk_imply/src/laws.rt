//! What implication and the cover come to. A law is a contract; its function does nothing.

ghost use Rattle.pk_imply.specs.Laws.{PlacesAreTrueOfTables, RulesLeadToTheKey, DerivationsAreSound, OneListIsTheCover, TheCoverIsComputed, TheRuleTellsTheCover, CoverImpliesTheSame, CoverImpliesTheSameByRule, CoverHasNoneToSpare, CoverHasNoneToSpareByRule, CoverIsInEachEqual, CoverIsInEachEqualByRule};
ghost use Rattle.pk_imply.specs.Examples.{ExamplesAreComputed};
ghost use Rattle.pk_imply.specs.Edges.{QuestionsAtTheirEdges, RulesAtTheirEdges, CoversAtTheirEdges};

/// The place that `implies` tells is that of the first declared key that alone implies the key asked for,
/// by all tables; none is told where the key fails in some table of the schema.
pub fn places_are_true_of_tables()
    ensures { PlacesAreTrueOfTables }
{}

/// The rules that `derive` tells begin with the declaration of that key, and lead from it to the key asked
/// for.
pub fn rules_lead_to_the_key()
    ensures { RulesLeadToTheKey }
{}

/// Whatever rules lead from a declared key to another, that one holds in every table of the schema.
pub fn derivations_are_sound()
    ensures { DerivationsAreSound }
{}

/// At most one list of keys is the cover of a schema's keys.
pub fn one_list_is_the_cover()
    ensures { OneListIsTheCover }
{}

/// There is a cover, and the columns of the declared keys compute it.
pub fn the_cover_is_computed()
    ensures { TheCoverIsComputed }
{}

/// Sets of columns alone tell which list of keys is the cover.
pub fn the_rule_tells_the_cover()
    ensures { TheRuleTellsTheCover }
{}

/// The cover implies just what the declared keys imply: by all tables, and so by sets of columns.
pub fn the_cover_implies_the_same()
    ensures tables { CoverImpliesTheSame }
    ensures rule { CoverImpliesTheSameByRule }
{}

/// None of the cover's keys is implied by the others: by all tables, and so by sets of columns.
pub fn the_cover_has_none_to_spare()
    ensures tables { CoverHasNoneToSpare }
    ensures rule { CoverHasNoneToSpareByRule }
{}

/// All keys of the cover are in each list of keys that implies the same and whose possible keys each
/// have a column that may be null: by all tables, and so by sets of columns.
pub fn the_cover_is_in_each_equal()
    ensures tables { CoverIsInEachEqual }
    ensures rule { CoverIsInEachEqualByRule }
{}

/// What keys over three columns imply, by which rules, and what covers them.
pub fn examples_are_computed()
    ensures { ExamplesAreComputed }
{}

/// What the definitions give at their edges, computed: no column and all of 32, no key, one that stands
/// twice and the last of 32, and two causes at once.
pub fn definitions_at_their_edges()
    ensures questions { QuestionsAtTheirEdges }
    ensures rules { RulesAtTheirEdges }
    ensures covers { CoversAtTheirEdges }
{}
