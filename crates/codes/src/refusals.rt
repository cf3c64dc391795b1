// Refusals and outcomes as numbers.
#![tactic(auto, unfolding(model::specs::Given::number_of, model::specs::Given::place_given, model::specs::Given::answer_given, model::specs::Given::refusal_given, model::specs::Given::given))]

ghost use Rattle.std.specs.Prelude.{◌≡◌};
ghost use Rattle.model.specs.Given.{number_of, place_given, answer_given, refusal_given, given};
ghost use Rattle.model.specs.Steps.{is_done};

use model::{Answer, Given, MOST_BYTES, Outcome, Refusal};

// Document 01's number.
pub fn number(why: Refusal) -> u32
    ensures { result ≡ number_of why }
{
    match why {
        Refusal::NotSound => 1,
        Refusal::NoSuchSite => 2,
        Refusal::AddressPastLast => 4,
        Refusal::TagOutstanding => 5,
        Refusal::MayNotIssue => 6,
        Refusal::StallFull => 7,
        Refusal::NothingThere => 8,
        Refusal::MustStillWait => 9,
        Refusal::NoRecord(_) => 10,
        Refusal::BufferShort => 11,
        Refusal::SizeOutside => 12,
        Refusal::RecordLong => 13,
    }
}

// The place that goes with it.
pub fn place(why: Refusal) -> usize
    ensures { result ≡ place_given why }
{
    match why {
        Refusal::NoRecord(at) => at,
        Refusal::RecordLong => MOST_BYTES,
        _ => 0,
    }
}

fn answer_given(a: Answer) -> Given
    ensures { result ≡ answer_given a }
{
    match a {
        Answer::Nothing => Given::default(),
        Answer::Loaded { site, tag, value } => Given {
            answered: 1,
            site,
            tag,
            value,
            ..Given::default()
        },
        Answer::Acknowledged { site, tag } => Given {
            answered: 2,
            site,
            tag,
            ..Given::default()
        },
    }
}

fn refusal_given(why: Refusal) -> Given
    ensures { result ≡ refusal_given why }
{
    Given {
        number: number(why),
        place: place(why),
        ..Given::default()
    }
}

// The numbers that an outcome is given back as.
pub fn given_of(o: Outcome) -> Given
    ensures { result ≡ given o }
{
    match o {
        Ok(answer) => answer_given(answer),
        Err(why) => refusal_given(why),
    }
}

// Whether it was done: no refusal.
pub fn is_done(o: Outcome) -> bool
    ensures { result ≡ is_done o }
{
    o.is_ok()
}
