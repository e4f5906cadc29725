//! An entry over an etcd in memory, which refuses and loses as its fates say.

ghost use Rattle.std.specs.Prelude.{◌≡◌, [], codes, IfOk};

use gu_etcd::{AppendError, Appender, Fate, MAX_ENTRY, MemoryNode, entry_of};
use std::alloc::{AllocError, Global};
use std::test::Fail;

/// Returns an etcd with an empty log, which desk A-2 asks, and whose calls have these fates, the last one first.
pub fn node_of(alloc: Global, leads: bool, fates: &[Fate]) -> Result<MemoryNode, AllocError>
    ensures leader { IfOk result (λ node. node.leader.items ≡ codes "A-2") }
    ensures log { IfOk result (λ node. node.log.items ≡ []) }
    ensures known { IfOk result (λ node. node.known ≡ 0) }
{
    let fates = Vec::from_slice(alloc, fates)?;
    let leader = Vec::from_slice(alloc, b"A-2")?;
    let mut node = MemoryNode::new(leader, Vec::new(alloc), 0);
    node.set_fates(fates);
    if !leads {
        node.lose_leadership();
    }
    Ok(node)
}

/// Has desk A-2 append an entry, and returns how many it knows to be kept then.
fn append(
    alloc: Global,
    leads: bool,
    fates: &[Fate],
) -> Result<Result<u64, AppendError>, AllocError> {
    let entry = entry_of(alloc, b"A-2", b"DAY 20260105\n")?;
    if entry.len() > MAX_ENTRY {
        return Ok(Err(AppendError::Full));
    }
    let node = node_of(alloc, leads, fates)?;
    Ok(match Appender::new(node, 0).append(alloc, &entry) {
        Ok(appender) => Ok(appender.count()),
        Err(stopped) => Err(stopped.error()),
    })
}

/// What comes upon the calls, whether the desk leads, their fates, the last one first, and what the appender says.
const ROWS: &[(&str, bool, &[Fate], Result<u64, AppendError>)] = &[
    ("nothing", true, &[], Ok(1)),
    ("an answer", true, &[Fate::Answered], Ok(1)),
    ("a lost question", true, &[Fate::RequestLost], Ok(1)),
    ("a lost answer", true, &[Fate::AnswerLost], Ok(1)),
    (
        "several of both",
        true,
        &[
            Fate::RequestLost,
            Fate::AnswerLost,
            Fate::AnswerLost,
            Fate::RequestLost,
        ],
        Ok(1),
    ),
    (
        "no answer at all",
        true,
        &[Fate::RequestLost; 16],
        Err(AppendError::Failed),
    ),
    ("another desk leads", false, &[], Err(AppendError::Fenced)),
    (
        "another desk leads, and an answer is lost",
        false,
        &[Fate::AnswerLost],
        Err(AppendError::Fenced),
    ),
];

#[test]
fn an_entry_is_kept_or_its_desk_is_fenced(rt: HostRuntime) -> Result<(), Fail> {
    for (what, leads, fates, said) in ROWS {
        let outcome = append(rt.alloc(), *leads, fates)?;
        assert_eq!(rt; outcome, *said, "{what}");
    }
    Ok(())
}
