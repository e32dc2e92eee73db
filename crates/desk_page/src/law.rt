//! Laws of a page, each carried by the contract of a function.

ghost use Rattle.desk_page.specs.Escaped.{EscapesAll};
ghost use Rattle.desk_page.specs.Laws.{EachAccountOnce, EachStandsOnce};

/// A text of a page has none of `<`, `>`, `"` and `'`, and a reader of the page takes it for the text that was read.
pub fn texts_are_escaped()
    ensures { EscapesAll }
{}

/// Each message of the file stands in one group of the page alone.
pub fn each_stands_once()
    ensures { EachStandsOnce }
{}

/// Each account stands in the table of one currency alone, and each currency has one table.
pub fn each_account_once()
    ensures { EachAccountOnce }
{}
