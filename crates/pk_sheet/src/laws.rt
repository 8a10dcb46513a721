//! What holds of sheets, of their maps and of their pages. A law is a contract; its function does nothing.

ghost use Rattle.pk_sheet.specs.Laws.{OneSheet, SheetsHavePages, SheetsAreMaps, ChangedSheets, PagesOfNone};
ghost use Rattle.pk_sheet.specs.Edges.{SheetsAtTheirEdges};

/// A page holds one sheet at most.
pub fn a_page_holds_one_sheet()
    ensures { OneSheet }
{}

/// Each sheet has a page that holds it, of 4,096 bytes.
pub fn sheets_have_pages()
    ensures { SheetsHavePages }
{}

/// A sheet's map has at each place what the record there has, and to add or to remove a record is to do so with the map.
pub fn sheets_are_maps()
    ensures { SheetsAreMaps }
{}

/// A sheet with one more record, for which it has room, is a sheet, and so is one without a record; and the room that each
/// leaves.
pub fn changed_sheets_are_sheets()
    ensures { ChangedSheets }
{}

/// What no page of a sheet has: more records than fit, a record that goes on behind its end, places that don't ascend, or
/// another byte than 0 behind the last record.
pub fn pages_of_no_sheet()
    ensures { PagesOfNone }
{}

/// The smallest and the fullest sheets, their pages, and changes of a small one.
pub fn sheets_at_their_edges()
    ensures { SheetsAtTheirEdges }
{}
