// The questions that the program knows, by their verbs. A family of verbs has a library of its own, which counts a
// line's words, decodes them and puts the answer; here stands which family a verb is of. A line with no verb is no
// question. An answer has its own room, and a line that says more than the lent buffer holds is no question: so no
// room is required.
#![tactic(auto)]

ghost use Rattle.std.specs.Prelude.{◌≡◌, [], length, get_or, Some, None, IfSome};
ghost use Rattle.answering.specs.Answers.{no_question};
ghost use Rattle.asking.specs.Words.{words as Words·words};
ghost use Rattle.asking.specs.Hex.{fitting};
ghost use Rattle.judge_questions.specs.Readings.{read_verb, read_asked, ReadAnswer, ReadNumbers};
ghost use Rattle.questions.specs.Verbs.{Verb};
ghost use Rattle.questions.specs.declared.Question.TheVariants.{Read};

use answering::Answer;
use asking::words;
use element_questions::Lookup;
use frame_questions::Asked;
use judge_questions::Judge;
use text_questions::Writing;

// What is asked: the families of verbs, each with what tells its verbs apart.
// An enum names each once, and no trait of a family: it would have this one caller.
#[derive(Clone, Copy)]
enum Question {
    Read,
    Element(Lookup),
    Judgement(Judge),
    Text(Writing),
    Acknowledgement,
    Frame(Asked),
}

impl Question {
    // What a verb asks.
    fn of(verb: &[u8]) -> Option<Question>
        ensures unknown { (Verb verb.now → ⊥) → result ≡ None }
        ensures read { verb.now ≡ read_verb → result ≡ Some Read }
    {
        if alphabet::same(verb, b"read") {
            return Some(Question::Read);
        }
        if alphabet::same(verb, b"ack") {
            return Some(Question::Acknowledgement);
        }
        if let Some(lookup) = Lookup::of(verb) {
            return Some(Question::Element(lookup));
        }
        if let Some(judge) = Judge::of(verb) {
            return Some(Question::Judgement(judge));
        }
        if let Some(writing) = Writing::of(verb) {
            return Some(Question::Text(writing));
        }
        if let Some(asked) = Asked::of(verb) {
            return Some(Question::Frame(asked));
        }
        None
    }

    // Puts the answer to a line with such a verb, in the place of whatever was put before.
    fn answer(self, line: &[u8], said: &mut [u8], answer: &mut Answer)
        ensures read { self ≡ Read
            → ReadAnswer (fitting (length said.old) (read_asked (Words·words line.now))) answer.new }
        ensures which { self ≡ Read → IfSome (fitting (length said.old) (read_asked (Words·words line.now)))
            (λ message. ReadNumbers message answer.new) }
    {
        match self {
            Question::Read => judge_questions::answer_read(line, said, answer),
            Question::Element(lookup) => lookup.answer(line, said, answer),
            Question::Judgement(judge) => judge.answer(line, said, answer),
            Question::Text(writing) => writing.answer(line, said, answer),
            Question::Acknowledgement => acknowledgement_questions::answer(line, said, answer),
            Question::Frame(asked) => asked.answer(line, said, answer),
        }
    }
}

// Puts the answer to a line, in the place of whatever was put before. `said` is lent for the bytes that the line says.
pub fn answer(line: &[u8], said: &mut [u8], answer: &mut Answer)
    ensures unknown { (Verb (get_or (Words·words line.now) 0 []) → ⊥) → answer.new ≡ no_question }
    ensures read { get_or (Words·words line.now) 0 [] ≡ read_verb
        → ReadAnswer (fitting (length said.old) (read_asked (Words·words line.now))) answer.new }
    ensures which { get_or (Words·words line.now) 0 [] ≡ read_verb
        → IfSome (fitting (length said.old) (read_asked (Words·words line.now)))
        (λ message. ReadNumbers message answer.new) }
{
    match Question::of(words::word(line, 0)) {
        Some(question) => question.answer(line, said, answer),
        None => answer.put_no_question(),
    }
}
