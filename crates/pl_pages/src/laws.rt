//! What follows from the definitions. Each function is a law: its clause holds of all values, and
//! its body does nothing.

ghost use Rattle.pl_pages.specs.Laws.{AnswersReach, FitsLongerLogs, ImagesAreWhole, PagesKeepTheirSize, PagesStay};

/// What fits a log fits each log that begins with it, so that pages stay true while the log grows.
pub fn pages_fit_longer_logs()
    // What fits a log fits each log that begins with it.
    ensures law { FitsLongerLogs }
{}

/// A page at an LSN of a log is that of each log that begins with it, so that a get at one LSN gives
/// the same bytes however the log has grown.
pub fn pages_stay()
    // A page at an LSN of a log is that of each log that begins with it.
    ensures law { PagesStay }
{}

/// The page of blocks has 8,192 bytes.
pub fn pages_keep_their_size()
    // The page of blocks has 8,192 bytes.
    ensures law { PagesKeepTheirSize }
{}

/// A block that makes the whole page gives the same page whatever was there before, so that a replay may
/// begin with it.
pub fn images_are_whole()
    // The page after an image is the same, whatever it was before.
    ensures law { ImagesAreWhole }
{}

/// The LSN that a get is answered at is not below the one that was asked for, is that one if the
/// get is exact, and is not above the end of the log.
pub fn answers_reach()
    // The LSN of an answer is not below the one asked for, is that one if the get is exact, and
    // is not above the log's end.
    ensures law { AnswersReach }
{}
