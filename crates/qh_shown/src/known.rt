//! The laws of a book by which those of this crate are proved.

ghost use Rattle.qh_shown.specs.Laws.{BookLaws};

/// What is known of how a book shows streams and datagrams.
pub(crate) fn books_show()
    ensures { BookLaws }
{
    qh_book::frames_shown();
    qh_book::untold_shown();
    qh_book::first_shown();
    qh_book::datagrams_shown::<u8>();
    qh_book::kept_shown::<u8>();
}
