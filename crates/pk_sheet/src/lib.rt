//! Sheets: stored records on one page of a file.
//!
//! A sheet is a list of records by ascending places that fits on a page of 4,096 bytes: 2 bytes are the number of records, and
//! each takes 14 bytes more than it has. Contracts see a `Sheet` as that list, and as the map from places to bytes that it
//! stands for. `specs/Sheets.antt` says what a sheet is, and `specs/Pages.antt` which page holds which sheet.
//!
//! A page is read exactly where it holds a sheet; all other pages are `Bad`, and nothing is guessed. What was written is read
//! again, and a page that was read is written again as it was.
#![tactic(auto)]

mod by_place;
mod laws;
mod reading;
mod sheet;
mod sheet_err;
mod writing;

pub use laws::{
    a_page_holds_one_sheet, changed_sheets_are_sheets, pages_of_no_sheet, sheets_are_maps,
    sheets_at_their_edges, sheets_have_pages,
};
pub use reading::read_sheet;
pub use sheet::Sheet;
pub use sheet_err::SheetErr;

#[cfg(test)]
mod tests;
