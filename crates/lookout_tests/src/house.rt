//! The house whose desk follows a log.

use gu_ref::Reference;
use gu_script::play_opening;
use gu_streams::CountedReads;
use gu_terms::Seed;
use gu_world::World;
use std::alloc::Global;

/// The rows of its reference.
const ROWS: &str =
    "FIRM,E1\nFIRM,C1\nGROUP,G1\nINSTRUMENT,XF6,G1\nACCOUNT,H1,E1\nACCOUNT,A1,C1\nAGREEMENT,P1,E1,A1\n";

/// Returns its reference.
pub fn reference(alloc: Global) -> Option<Reference> {
    Reference::read(alloc, &mut CountedReads::new(ROWS.as_bytes())).ok()
}

/// Returns the world that a script leads to.
pub fn world_after(alloc: Global, script: &str) -> Option<World> {
    let mut reads = CountedReads::new(script.as_bytes());
    let (world, refused) = play_opening(alloc, reference(alloc)?, Seed::new(0), &mut reads).ok()?;
    drop(refused);
    Some(world)
}
