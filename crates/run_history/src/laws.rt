// Which request an output answers, by the numbers of requests and outputs.
ghost use Rattle.run_history.specs.Outputs.{AnswersInOrder, AnswersInTurn};

/// Law: by order, the request of a number has one answer: the output of that number, at the end of the segment that
/// puts it. No effect at run time.
pub fn outputs_answer_in_order()
    ensures { AnswersInOrder }
{}

/// Law: by value, a request that comes while n others of its value wait has one answer: output n of the following
/// outputs of its value, at the end of the segment that puts it. No effect at run time.
pub fn outputs_answer_in_turn()
    ensures { AnswersInTurn }
{}
