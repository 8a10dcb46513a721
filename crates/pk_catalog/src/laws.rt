//! What holds of records, of maps and of what commits do to them, in words that don't retrace how records are spelled.
//! A law is a contract; its function does nothing.

ghost use Rattle.pk_catalog.specs.Laws.{RecordsTellOne, RowsHaveRecords, OneBase, BasesHaveMaps, NewTablesHaveNumbers, BatchesAreCommits};
ghost use Rattle.pk_catalog.specs.BaseMaps.{MapsOfBases, MapsOfNone};
ghost use Rattle.pk_catalog.specs.BaseEdges.{BasesAtTheirEdges};
ghost use Rattle.pk_catalog.specs.Edges.{RecordsAtTheirEdges};

/// The same bytes are the record of one thing at most, so that two different rows of a table have different bytes.
pub fn records_tell_one()
    ensures { RecordsTellOne }
{}

/// A row has a record by each schema that admits it, and each time the same.
pub fn rows_have_records()
    ensures { RowsHaveRecords }
{}

/// A map stands for one base at most.
pub fn a_map_stands_for_one_base()
    ensures { OneBase }
{}

/// A base that files may keep has a map, under any numbers of its tables.
pub fn bases_have_maps()
    ensures { BasesHaveMaps }
{}

/// A map stands for a base exactly where it is empty or has what maps of bases have, which is said of the map alone.
pub fn maps_of_bases()
    ensures { MapsOfBases }
{}

/// What no map of a base has: another place than those of bases, a row without its table or above it, two tables of one
/// name, too many rows, or bytes that are no record.
pub fn maps_of_no_base()
    ensures { MapsOfNone }
{}

/// Among fewer than 256 tables a new one has a number, the least free one, and with it the tables are numbered as before.
pub fn new_tables_have_numbers()
    ensures { NewTablesHaveNumbers }
{}

/// What batches do to a map: they count a commit, make or drop a table, and change the rows of one; and two batches
/// that don't meet are one.
pub fn batches_are_commits()
    ensures { BatchesAreCommits }
{}

/// The bytes of small records, computed.
pub fn records_at_their_edges()
    ensures { RecordsAtTheirEdges }
{}

/// The maps of a small base under the first and the last number, and maps beside them that stand for none.
pub fn bases_at_their_edges()
    ensures { BasesAtTheirEdges }
{}
