//! A desk follows a log until it leads.

use crate::etcd::{Etcd, LOG, Way};
use crate::heirs::{Heir, Try, Wishers};
use gu_etcd::{Gateway, Name};
use gu_ref::Reference;
use gu_standby::{FollowError, Followed, Follower, LeadAnswer, Wish, follow};
use gu_streams::CountedReads;
use gu_terms::Seed;
use std::alloc::Global;
use std::test::Fail;

/// The rows of a reference.
const ROWS: &str =
    "FIRM,E1\nFIRM,C1\nGROUP,G1\nINSTRUMENT,XF6,G1\nACCOUNT,H1,E1\nACCOUNT,A1,C1\nAGREEMENT,P1,E1,A1\n";

/// What a log has at first, what happens then, and what becomes of the desk that follows it: after how many pauses it leads or finds the
/// day closed, or why it gives up; and how many entries of the log it has played, and how many the book has.
type Case = (
    &'static str,
    &'static [&'static str],
    &'static [Try],
    Result<Option<u32>, FollowError>,
    u64,
    usize,
);

const CASES: &[Case] = &[
    (
        "each batch is played as it comes, until the desk leads",
        &["DAY 20260105\n# OPENED\n"],
        &[
            Try::IsLed("LIMIT G1 EXEC E1 100\n"),
            Try::IsLed("LIMIT G1 EXEC E1 90\nLIMIT G1 EXEC E1 80\n"),
            Try::Leads(""),
        ],
        Ok(Some(2)),
        3,
        4,
    ),
    (
        "what was appended just before it leads is played too",
        &["DAY 20260105\n# OPENED\n"],
        &[Try::Leads("LIMIT G1 EXEC E1 100\n")],
        Ok(Some(0)),
        2,
        2,
    ),
    ("an empty log", &[], &[Try::Leads("")], Ok(Some(0)), 0, 0),
    (
        "a log that isn't opened yet is waited for",
        &[],
        &[
            Try::IsLed("# giveup\n"),
            Try::IsLed("DAY 20260105\n"),
            Try::IsLed("# OPENED\n"),
            Try::Leads(""),
        ],
        Ok(Some(3)),
        3,
        1,
    ),
    (
        "a closed day is never led",
        &["DAY 20260105\n# OPENED\n", "# CLOSED\n"],
        &[Try::Leads("")],
        Ok(None),
        2,
        1,
    ),
    (
        "nor one that is closed while the desk follows it",
        &["DAY 20260105\n# OPENED\n"],
        &[Try::IsLed("# CLOSED\n"), Try::Leads("")],
        Ok(None),
        2,
        1,
    ),
    (
        "nor one that is closed just before the desk leads",
        &["DAY 20260105\n# OPENED\n"],
        &[Try::Leads("# CLOSED\n")],
        Ok(None),
        2,
        1,
    ),
    (
        "a day that went on after its close",
        &[
            "DAY 20260105\n# OPENED\n",
            "# CLOSED\n",
            "LIMIT G1 EXEC E1 100\n",
        ],
        &[Try::Leads("")],
        Ok(Some(0)),
        3,
        2,
    ),
    (
        "a try without an answer, and pages without one",
        &["DAY 20260105\n# OPENED\n"],
        &[
            Try::Unanswered,
            Try::Silence(2),
            Try::IsLed("LIMIT G1 EXEC E1 100\n"),
            Try::Leads(""),
        ],
        Ok(Some(5)),
        2,
        2,
    ),
    (
        "no answer for too long",
        &["DAY 20260105\n# OPENED\n"],
        &[Try::Silence(1_000)],
        Err(FollowError::Unanswered),
        1,
        1,
    ),
    (
        "a line that is none",
        &["DAY 20260105\n# OPENED\n"],
        &[Try::IsLed("# a\nHELLO\n"), Try::Leads("")],
        Err(FollowError::BadLine(4)),
        1,
        1,
    ),
];

/// Returns the reference of the tests.
fn reference(alloc: Global) -> Result<Reference, Fail> {
    match Reference::read(alloc, &mut CountedReads::new(ROWS.as_bytes())) {
        Ok(reference) => Ok(reference),
        Err(_) => Err(Fail::from("a reference")),
    }
}

/// Returns the gateway of a desk to a log.
fn gateway<'a>(alloc: Global, etcd: &'a Etcd) -> Result<Gateway<Way<'a>>, Fail> {
    let log = Name::new(Vec::from_slice(alloc, LOG)?).ok_or("a name")?;
    let desk = Name::new(Vec::from_slice(alloc, b"desk-A")?).ok_or("a name")?;
    Ok(Gateway::new(Way { etcd }, 1, log, desk))
}

#[test]
fn a_desk_follows_a_log_until_it_leads(rt: HostRuntime) -> Result<(), Fail> {
    let alloc = rt.alloc();
    for (what, batches, tries, became, count, entries) in CASES {
        let etcd = Etcd::new(alloc);
        for batch in *batches {
            etcd.append(alloc, batch)?;
        }
        let mut heir = Heir {
            etcd: &etcd,
            tries,
            patience: 5,
            pauses: 0,
        };
        let mut wishers = Wishers {
            wishes: &[],
            answer: None,
            answers: 0,
        };
        let mut gateway = gateway(alloc, &etcd)?;
        let mut follower = Follower::new(alloc, reference(alloc)?, Seed::new(0));
        let end = follow(
            &rt,
            alloc,
            &mut follower,
            &mut gateway,
            &mut heir,
            &mut wishers,
        );
        let followed = match end {
            Ok(Followed::Leads(pauses)) => Ok(Some(pauses)),
            Ok(Followed::Closed | Followed::Dismissed) => Ok(None),
            Err(error) => Err(error),
        };
        assert_eq!(rt; followed, *became, "{what}");
        assert_eq!(rt; follower.count(), *count, "{what}");
        if became.is_ok() {
            let day = follower.end().ok().expect(&rt, what);
            assert_eq!(rt; day.world.book().history().len(), *entries, "{what}");
        }
    }
    Ok(())
}

/// What becomes of a desk.
#[derive(Clone, Copy, Debug, PartialEq, Eq)]
enum End {
    Leads,
    Closed,
    Dismissed,
    Unanswered,
}

/// What operators wish, beside what happens in the log DAY with one batch; what becomes of the desk, what the last wish for the lead is
/// answered, and how many entries of the log it has played.
type WishCase = (
    &'static str,
    &'static [Option<Wish>],
    &'static [Try],
    End,
    Option<LeadAnswer>,
    u64,
);

const LEAD: Option<Wish> = Some(Wish::Lead);

const CLOSE: Option<Wish> = Some(Wish::Close);

const WISHES: &[WishCase] = &[
    (
        "the lead of a living desk",
        &[LEAD],
        &[Try::IsLed(""), Try::IsLed(""), Try::IsLed("")],
        End::Leads,
        Some(LeadAnswer::Leading),
        1,
    ),
    (
        "the lead of a desk that appends before the claim",
        &[LEAD],
        &[
            Try::IsLed(""),
            Try::IsLed("LIMIT G1 EXEC E1 100\n"),
            Try::IsLed(""),
        ],
        End::Leads,
        Some(LeadAnswer::Leading),
        2,
    ),
    (
        "the lead of a desk that appends beside two claims",
        &[LEAD],
        &[
            Try::IsLed(""),
            Try::IsLed(""),
            Try::IsLed("LIMIT G1 EXEC E1 100\n"),
            Try::IsLed("LIMIT G1 EXEC E1 90\n"),
            Try::IsLed(""),
        ],
        End::Leads,
        Some(LeadAnswer::Leading),
        3,
    ),
    (
        "the lead of a desk that appends beside each claim, and a close after it",
        &[LEAD, CLOSE],
        &[
            Try::IsLed(""),
            Try::IsLed(""),
            Try::IsLed("LIMIT G1 EXEC E1 100\n"),
            Try::IsLed("LIMIT G1 EXEC E1 90\n"),
            Try::IsLed("LIMIT G1 EXEC E1 80\n"),
        ],
        End::Dismissed,
        Some(LeadAnswer::Stale),
        4,
    ),
    (
        "the lead that a third desk takes",
        &[LEAD, CLOSE],
        &[
            Try::IsLed(""),
            Try::IsLed(""),
            Try::Moved,
            Try::Moved,
            Try::Moved,
        ],
        End::Dismissed,
        Some(LeadAnswer::Stale),
        1,
    ),
    (
        "the lead that is free by now",
        &[None, LEAD],
        &[
            Try::IsLed(""),
            Try::IsLed(""),
            Try::Leads("LIMIT G1 EXEC E1 100\n"),
        ],
        End::Leads,
        Some(LeadAnswer::Leading),
        2,
    ),
    (
        "the lead, while etcd doesn't answer",
        &[LEAD, CLOSE],
        &[Try::IsLed(""), Try::Unanswered],
        End::Dismissed,
        Some(LeadAnswer::NotLeading),
        1,
    ),
    (
        "the lead, while etcd doesn't answer the claim",
        &[LEAD, CLOSE],
        &[Try::IsLed(""), Try::IsLed(""), Try::Unanswered],
        End::Dismissed,
        Some(LeadAnswer::NotLeading),
        1,
    ),
    (
        "the lead of a day that ends just before the claim",
        &[LEAD],
        &[Try::IsLed(""), Try::IsLed("# CLOSED\n")],
        End::Closed,
        Some(LeadAnswer::NotLeading),
        2,
    ),
    (
        "an end of the desk, not of the day",
        &[None, None, CLOSE],
        &[Try::IsLed("LIMIT G1 EXEC E1 100\n")],
        End::Dismissed,
        None,
        2,
    ),
    (
        "nothing",
        &[None],
        &[Try::Silence(1_000)],
        End::Unanswered,
        None,
        1,
    ),
];

#[test]
fn a_desk_does_what_operators_wish(rt: HostRuntime) -> Result<(), Fail> {
    let alloc = rt.alloc();
    for (what, wishes, tries, end, answer, count) in WISHES {
        let etcd = Etcd::new(alloc);
        etcd.append(alloc, "DAY 20260105\n# OPENED\n")?;
        let mut heir = Heir {
            etcd: &etcd,
            tries,
            patience: 5,
            pauses: 0,
        };
        let mut wishers = Wishers {
            wishes,
            answer: None,
            answers: 0,
        };
        let mut gateway = gateway(alloc, &etcd)?;
        let mut follower = Follower::new(alloc, reference(alloc)?, Seed::new(0));
        let became = match follow(
            &rt,
            alloc,
            &mut follower,
            &mut gateway,
            &mut heir,
            &mut wishers,
        ) {
            Ok(Followed::Leads(_)) => End::Leads,
            Ok(Followed::Closed) => End::Closed,
            Ok(Followed::Dismissed) => End::Dismissed,
            Err(_) => End::Unanswered,
        };
        assert_eq!(rt; became, *end, "{what}");
        assert_eq!(rt; wishers.answer, *answer, "{what}");
        assert_eq!(rt; wishers.answers, u32::from(answer.is_some()), "{what}");
        assert_eq!(rt; follower.count(), *count, "{what}");
    }
    Ok(())
}

#[test]
fn a_long_log_is_read_page_by_page(rt: HostRuntime) -> Result<(), Fail> {
    let alloc = rt.alloc();
    let etcd = Etcd::new(alloc);
    etcd.append(alloc, "DAY 20260105\n")?;
    for _batch in 0..40 {
        etcd.append(alloc, "LIMIT G1 EXEC E1 100\n")?;
    }
    let mut gateway = gateway(alloc, &etcd)?;
    let mut follower = Follower::new(alloc, reference(alloc)?, Seed::new(0));
    assert_eq!(rt; follower.read(alloc, &mut gateway), Ok(true));
    assert_eq!(rt; follower.count(), 41);
    assert_eq!(rt; etcd.pages.get(), 3);
    assert_eq!(rt; follower.text().len(), 13 + 40 * 21);
    Ok(())
}

#[test]
fn an_entry_of_no_desk_is_refused(rt: HostRuntime) -> Result<(), Fail> {
    let alloc = rt.alloc();
    let etcd = Etcd::new(alloc);
    etcd.append_entry(Vec::from_slice(alloc, b"DAY 20260105\n")?)?;
    let mut gateway = gateway(alloc, &etcd)?;
    let mut follower = Follower::new(alloc, reference(alloc)?, Seed::new(0));
    assert_eq!(rt;
        follower.read(alloc, &mut gateway),
        Err(FollowError::Foreign)
    );
    Ok(())
}
