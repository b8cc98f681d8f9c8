//! Whole reports of small runs, word for word.

ghost use Rattle.report_text.specs.Examples.{ResetAndCreate, SecondBodyGetsANotice, StoreAcrossPages};

/// The report of a store and a load across a page's end, word for word.
pub fn store_across_pages()
    ensures { StoreAcrossPages }
{}

/// The report of a ring that one body fills and a second one is noted on, word for word.
pub fn second_body_gets_a_notice()
    ensures { SecondBodyGetsANotice }
{}

/// The report of a domain that is reset, ended and made anew by a script of format 2, word for word.
pub fn reset_and_create()
    ensures { ResetAndCreate }
{}
