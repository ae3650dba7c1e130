// To C an answer is one number: which answers each call can give, and what comes out of their numbers.
ghost use Rattle.demands.specs.Numbers.{QuestionsAnswered, ExtractsAnswered, ShortFormsAnswered, NotationAnswered, DerivationsAnswered, AnswersComeBack};

// Acts-for and flows-to: yes, no by a coalition of the job, or 86, 10 to 14, 84, 85, 21 to 24, 31 to 34, 41 to 44; 86 exactly on a day that is not real.
pub fn a_question_gets_yes_no_or_a_refusal_of_its_list()
    ensures { QuestionsAnswered }
{}

// An extract: written, or 86, 51, 10 to 14, 84, 85, 41 to 44.
pub fn an_extract_is_written_or_gets_a_refusal_of_its_list()
    ensures { ExtractsAnswered }
{}

// A short form: written, of at most 3,700 bytes, or 7, 8, 1 to 4.
pub fn a_short_form_is_written_or_gets_a_refusal_of_its_list()
    ensures { ShortFormsAnswered }
{}

// A text: read, to at most 64 codes, or 7, 81 to 83. A term: written, in at most 192 characters, or 7, 81, 1 to 4 (document 02, K1).
pub fn texts_and_terms_are_written_or_get_a_refusal_of_their_lists()
    ensures { NotationAnswered }
{}

// A derivation: accepted, or 86, 10 to 14, 84, 85, 41 to 44, 60, or at one of its steps 61 to 67.
pub fn a_derivation_is_accepted_or_gets_a_refusal_of_its_list()
    ensures { DerivationsAnswered }
{}

// Of all calls that write or answer, on all lists and numbers: kind, side, coalition, step, refusal and length come back out of the number.
pub fn every_answer_comes_back_out_of_its_number()
    ensures { AnswersComeBack }
{}
