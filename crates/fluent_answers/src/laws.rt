//! What records and questions are made of.
ghost use Rattle.fluent_answers.specs.Encoded.{ReadsWritten};
ghost use Rattle.fluent_answers.specs.Rows.{AnswerRows, NumberRows, QuestionRows, WrittenRows};

/// Records that are written as bytes are read as what was written, whatever stands after them.
pub fn records_are_read_as_written()
    ensures { ReadsWritten }
{}

/// Numbers with options, questions and answers, by rows.
pub fn questions_and_answers_by_rows()
    ensures numbers { NumberRows }
    ensures written { WrittenRows }
    ensures questions { QuestionRows }
    ensures answers { AnswerRows }
{}
