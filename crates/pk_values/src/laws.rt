//! What holds of sets of columns and of values, in words that don't retrace how they are computed. A
//! law is a contract; its function does nothing.

ghost use Rattle.pk_values.specs.Laws.{ColumnsAreTheMembers, SameColumnsAreOneSet, SubsetIsInclusion, SetsAreOrdered, ValuesAreOrdered, ExampleIsKept, ValueRecordsEnd, RowRecordsDiffer};

/// The list of a set's columns has each of its members and no other number, and ascends.
pub fn columns_are_the_members()
    ensures { ColumnsAreTheMembers }
{}

/// Two sets with the same columns are one.
pub fn same_columns_are_one_set()
    ensures { SameColumnsAreOneSet }
{}

/// One set is inside another exactly where the other has each of its members.
pub fn subset_is_inclusion()
    ensures { SubsetIsInclusion }
{}

/// The order of sets is total: by size, then by the ascending lists of columns.
pub fn sets_are_ordered()
    ensures { SetsAreOrdered }
{}

/// The order of values is total, and ties just what is the same entry, which `equals` tells.
pub fn values_are_ordered()
    ensures { ValuesAreOrdered }
{}

/// The bytes in which files keep the row (1, NULL, 'ab').
pub fn example_is_kept()
    ensures { ExampleIsKept }
{}

/// The bytes in which files and indexes keep values tell where each value ends, and those of two rows
/// are the same only where the rows are equal.
pub fn records_tell_rows()
    ensures values { ValueRecordsEnd }
    ensures rows { RowRecordsDiffer }
{}
