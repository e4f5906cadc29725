//! Ids that fall together under the fixed seed of a book's tables: the answers are the same under another seed.

use crate::sample::reference_of;
use crate::transcript::{Patience, follow, world_of};
use gu_terms::Seed;
use gu_world::World;
use std::alloc::{AllocError, Global};
use std::process::Abort;

/// Reports and give-ups whose ids have one hash, and trades whose match ids have one, under the seed 0: their first 24 bytes take
/// the hasher of E1's ids, and that of match ids, to one state for any bytes after them.
const COLLIDING: &str = "\
DAY 20260105 = 1 OK
LIMIT G1 EXEC E1 1000000000 = 2 OK
LIMIT G1 AGR P1 1000000000 = 3 OK
LIMIT G1 ACCT A1 1000000000 = 4 OK
LIMIT G1 CARRY C1 1000000000 = 5 OK
EACH 10000000 10000500 1: REPORT E1 OBXDFWPGUMLAQOEMee2FH7sr#ZZZZZZZZZZZZZZZZ WTBZNRTMGOUSKABIJlxiKach#ZZZZZZZZZZZZZZZZ B XF6 2 101.5 H1 = OK OPEN
EACH 10000000 10000500 1: REPORT E2 S# WTBZNRTMGOUSKABIJlxiKach#ZZZZZZZZZZZZZZZZ S XF6 2 101.5 H2 = OK MATCHED
EACH 10000000 10000500 1: GIVEUP E1 OBXDFWPGUMLAQOEMee2FH7sr#ZZZZZZZZZZZZZZZZ OBXDFWPGUMLAQOEMee2FH7sr#ZZZZZZZZZZZZZZZZ A1 1 A2 1 = OK OFFERS
EACH 1 1001 2: CLAIM C1 # = OK LOTS 1
EACH 2 1001 2: CLAIM C1 # = NO 15 LimitReached
EACH 10000000 10000100 1: REPORT E1 OBXDFWPGUMLAQOEMee2FH7sr#ZZZZZZZZZZZZZZZZ X# B XF6 2 101.5 H1 = NO 6 DuplicateId
EACH 10000000 10000100 1: REPORT E2 T# WTBZNRTMGOUSKABIJlxiKach#ZZZZZZZZZZZZZZZZ S XF6 2 101.5 H2 = NO 7 MatchConflict
EACH 10000000 10000100 1: GIVEUP E1 OBXDFWPGUMLAQOEMee2FH7sr#ZZZZZZZZZZZZZZZZ OBXDFWPGUMLAQOEMee2FH7sr#ZZZZZZZZZZZZZZZZ A1 1 = NO 6 DuplicateId
EACH 10000000 10000100 1: GIVEUP E1 X# OBXDFWPGUMLAQOEMee2FH7sr#ZZZZZZZZZZZZZZZZ A1 1 = NO 11 TooManyLots
EACH 10000500 10000600 1: GIVEUP E1 OBXDFWPGUMLAQOEMee2FH7sr#ZZZZZZZZZZZZZZZZ OBXDFWPGUMLAQOEMee2FH7sr#ZZZZZZZZZZZZZZZZ A1 1 = NO 8 UnknownTrade
POSITION H1 XF6 = 500 0
POSITION H2 XF6 = 0 1000
POSITION A1 XF6 = 500 0
POSITION A2 XF6 = 0 0
EXTENT G1 = 2 1000 500 4
STRETCHES C1 1 = 4 1500
STRETCHES E1 1 = 3 1000
STRETCHES E2 1 = 3 500
BOOK = 3005 20260105
";

/// Two hundred thousand reports of such ids.
const MANY: &str = "\
DAY 20260105 = 1 OK
EACH 10000000 10200000 1: REPORT E1 OBXDFWPGUMLAQOEMee2FH7sr#ZZZZZZZZZZZZZZZZ WTBZNRTMGOUSKABIJlxiKach#ZZZZZZZZZZZZZZZZ B XF6 2 101.5 H1 = OK OPEN
BOOK = 200001 20260105
";

/// The limits that give-ups of the sample need.
const LIMITS: &str = "\
DAY 20260105 = 1 OK
LIMIT G1 EXEC E1 1000000000 = 2 OK
LIMIT G1 AGR P1 1000000000 = 3 OK
LIMIT G1 ACCT A1 1000000000 = 4 OK
LIMIT G1 CARRY C1 1000000000 = 5 OK
";

/// Returns lines for 4,000 trades of such ids: each is reported, given up, and then refused, so that the next ones find room for open offers.
fn given_up_from(alloc: Global, first: u32) -> Result<String, AllocError> {
    let first = u64::from(first);
    let (offer, end_of_offers) = (first + 1, first + 4_001);
    let (first, end) = (first + 10_000_000, first + 10_004_000);
    format!(in alloc;
        "\
EACH {first} {end} 1: REPORT E1 OBXDFWPGUMLAQOEMee2FH7sr#ZZZZZZZZZZZZZZZZ M# B XF6 2 101.5 H1 = OK OPEN
EACH {first} {end} 1: REPORT E2 S# M# S XF6 2 101.5 H2 = OK MATCHED
EACH {first} {end} 1: GIVEUP E1 OBXDFWPGUMLAQOEMee2FH7sr#ZZZZZZZZZZZZZZZZ OBXDFWPGUMLAQOEMee2FH7sr#ZZZZZZZZZZZZZZZZ A1 1 = OK OFFERS
EACH {offer} {end_of_offers} 1: REFUSE C1 # 1 = OK LOTS 1
"
    )
}

/// Returns a world of the sample whose tables have another seed.
fn seeded(rt: &impl Abort, alloc: Global) -> World {
    let reference = reference_of(alloc, "", "").ok().expect(rt, "a reference");
    World::seeded(alloc, reference, Seed::new(20_260_105))
}

#[test]
fn answers_do_not_depend_on_the_seed(rt: HostRuntime) {
    let alloc = rt.alloc();
    let mut fixed = world_of(&rt, alloc, "", "", Patience::Never);
    follow(
        &rt,
        alloc,
        &mut fixed,
        "the fixed seed",
        COLLIDING,
        Patience::Never,
    );
    let mut seeded = seeded(&rt, alloc);
    follow(
        &rt,
        alloc,
        &mut seeded,
        "another seed",
        COLLIDING,
        Patience::Never,
    );
}

/// Under the seed 0 each of these ids is looked for among all before it, which takes longer than a test may.
#[test]
fn colliding_ids_cost_nothing_under_another_seed(rt: HostRuntime) {
    let mut world = seeded(&rt, rt.alloc());
    follow(&rt, rt.alloc(), &mut world, "many", MANY, Patience::Never);
}

/// The lots of these reports that are given up are counted in a table of their own, under the seed of the book.
#[test]
fn colliding_give_ups_cost_nothing_under_another_seed(rt: HostRuntime) {
    let mut world = seeded(&rt, rt.alloc());
    follow(
        &rt,
        rt.alloc(),
        &mut world,
        "limits",
        LIMITS,
        Patience::Never,
    );
    for block in 0..15_u32 {
        let text = given_up_from(rt.alloc(), block.saturating_mul(4_000))
            .ok()
            .expect(&rt, "memory");
        follow(
            &rt,
            rt.alloc(),
            &mut world,
            "given up",
            &text,
            Patience::Never,
        );
    }
}
