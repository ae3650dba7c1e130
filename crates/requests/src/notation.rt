// Document 02, K1: the written notation.
ghost use Rattle.requests.specs.Notation.{AcceptsTheLanguage, OneTree, ReaderRefuses, WriterRefuses, EveryTermIsWritten, ReadsBack, FewestBrackets, AtMost192};
ghost use Rattle.requests.specs.Cases.{NotationCases};

// A text is read to these codes exactly if it is of the language, says them, and they are at most 64.
pub fn the_reader_accepts_exactly_the_language()
    ensures { AcceptsTheLanguage }
{}

// Two trees of the grammar with the same text are the same tree.
pub fn each_text_has_one_reading()
    ensures { OneTree }
{}

// 7, 81, 82 and 83, each exactly under its condition and in this order.
pub fn the_reader_refuses_exactly_under_its_conditions()
    ensures { ReaderRefuses }
{}

// 7 and 81, each exactly under its condition, and then the refusals of the term.
pub fn the_writer_refuses_exactly_under_its_conditions()
    ensures { WriterRefuses }
{}

// Every accepted term has a text.
pub fn every_accepted_term_is_written()
    ensures { EveryTermIsWritten }
{}

// What is written reads back to the same codes, and what is read can be written.
pub fn what_is_written_reads_back()
    ensures { ReadsBack }
{}

// No text that reads to the same codes has fewer brackets than the one that is written.
pub fn no_text_has_fewer_brackets()
    ensures { FewestBrackets }
{}

// No term is written in more than 192 characters.
pub fn no_text_is_over_192_characters()
    ensures { AtMost192 }
{}

// The cases of the request, on their own characters and codes.
pub fn worked_cases()
    ensures { NotationCases }
{}
