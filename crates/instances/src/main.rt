#![tactic(auto)]

// The instances of document 01 that the proved table does not hold, and each refusal at least once, run through the calls for C.
// Writes a line for each: the case's number, the refusal's or 0, and what else the call answered, with a refusal the position.
use model::Tally;
use samples::Shape;
use std::io;

// What a case does. Each stands below with its number, which its lines of the output begin with.
#[derive(Clone, Copy)]
enum Act {
    Open(Shape),
    OpenOtherSize,
    // Opens by a block without its first byte.
    OpenShort,
    Admit(Shape),
    // Admits a block so many times, with no line.
    Repeat(Shape, u64),
    Reaches(u64, u64),
    CarriesUser(u64, u64),
    RemoveContainer(u64),
    RemovePolicy(u64),
    Rebuild,
    Audit,
    Counts,
    // Writes a file into a buffer of so many bytes.
    Write(usize),
    // So many bytes of the block as a batch, with a list of so many numbers.
    Batch(Shape, usize, usize),
}

// Settings: each refusal that their blocks meet, and what stands at the limits.
fn opening_cases() -> [(u64, Act); 16] {
    [
        (1, Act::OpenOtherSize),
        (2, Act::Admit(samples::container(1, 1))),
        (3, Act::OpenShort),
        (4, Act::Open(samples::spoiled(samples::settings(1, 2)))),
        (5, Act::Open(samples::container(1, 1))),
        (6, Act::Open(samples::settings(0, 2))),
        (7, Act::Open(samples::settings(64, 2))),
        (8, Act::Open(samples::settings(65, 2))),
        (9, Act::Open(samples::settings(1, 64))),
        (10, Act::Open(samples::settings(1, 65))),
        (11, Act::Open(samples::settings(1, 0))),
        (
            12,
            Act::Open(samples::with_byte(samples::settings(1, 0), 5, 0)),
        ),
        (
            13,
            Act::Open(samples::with_byte(samples::settings(1, 0), 3, 1)),
        ),
        (
            14,
            Act::Open(samples::with_byte(samples::settings(1, 2), 5, 0)),
        ),
        (
            15,
            Act::Open(samples::with_byte(samples::settings(1, 0), 509, 1)),
        ),
        (16, Act::Open(samples::settings(1, 2))),
    ]
}

// Containers: each refusal that their blocks meet, and what stands at the limits.
// Kept: the lists of containers and of policies share no case, and as one they would be longer than a function may be.
fn container_cases() -> [(u64, Act); 13] {
    [
        (17, Act::Admit(samples::settings(1, 2))),
        (18, Act::Admit(samples::container(8, 1))),
        (19, Act::Admit(samples::container(9, 1))),
        (20, Act::Admit(samples::container(1, 64))),
        (21, Act::Admit(samples::container(1, 65))),
        (22, Act::Admit(samples::container(0, 0))),
        (23, Act::Admit(samples::container(1, 0))),
        (
            24,
            Act::Admit(samples::with_byte(samples::container(1, 1), 7, 0)),
        ),
        (
            25,
            Act::Admit(samples::with_byte(samples::container(2, 3), 9, 3)),
        ),
        (
            26,
            Act::Admit(samples::with_byte(samples::container(2, 3), 12, 1)),
        ),
        (
            27,
            Act::Admit(samples::with_byte(samples::container(2, 3), 2, 1)),
        ),
        (
            28,
            Act::Admit(samples::with_byte(samples::container(2, 3), 509, 1)),
        ),
        (29, Act::Admit(samples::spoiled(samples::container(2, 3)))),
    ]
}

// Policies: the same.
// Kept: as at `container_cases`.
fn policy_cases() -> [(u64, Act); 10] {
    [
        (30, Act::Admit(samples::policy(1, 4, 0, 1))),
        (31, Act::Admit(samples::policy(2, 5, 0, 1))),
        (32, Act::Admit(samples::policy(2, 0, 5, 1))),
        (33, Act::Admit(samples::policy(3, 1, 0, 1))),
        (34, Act::Admit(samples::policy(0, 1, 0, 1))),
        (35, Act::Admit(samples::policy(2, 1, 0, 64))),
        (36, Act::Admit(samples::policy(2, 1, 0, 65))),
        (
            37,
            Act::Admit(samples::with_byte(samples::policy(2, 2, 0, 3), 9, 3)),
        ),
        (
            38,
            Act::Admit(samples::with_byte(samples::policy(2, 2, 0, 3), 12, 1)),
        ),
        (39, Act::Admit(samples::policy(2, 4, 4, 1))),
    ]
}

// Slots asked about: free ones, and ones beyond their table.
fn asking_cases() -> [(u64, Act); 10] {
    [
        (40, Act::Reaches(0, 255)),
        (41, Act::Reaches(255, 256)),
        (42, Act::Reaches(256, 255)),
        (43, Act::Reaches(0, 1)),
        (44, Act::Reaches(1, 0)),
        (45, Act::CarriesUser(255, 1)),
        (46, Act::CarriesUser(256, 1)),
        (47, Act::CarriesUser(0, 1)),
        (48, Act::CarriesUser(0, 2)),
        (49, Act::CarriesUser(0, 65536)),
    ]
}

// Slots freed: free ones, ones beyond their table, and a freed one used again.
fn freeing_cases() -> [(u64, Act); 14] {
    [
        (50, Act::Counts),
        (51, Act::RemoveContainer(255)),
        (52, Act::RemoveContainer(256)),
        (53, Act::RemovePolicy(127)),
        (54, Act::RemovePolicy(128)),
        (55, Act::RemoveContainer(1)),
        (56, Act::RemoveContainer(1)),
        (57, Act::RemovePolicy(2)),
        (58, Act::RemovePolicy(2)),
        (59, Act::Admit(samples::container(1, 1))),
        (60, Act::Counts),
        (61, Act::Rebuild),
        (62, Act::Audit),
        (63, Act::Counts),
    ]
}

// Full tables: the 257th container and the 129th policy, and freed slots used again.
fn filling_cases() -> [(u64, Act); 15] {
    [
        (64, Act::Open(samples::settings(1, 2))),
        (65, Act::Repeat(samples::container(2, 1), 255)),
        (66, Act::Admit(samples::container(2, 1))),
        (67, Act::Admit(samples::container(2, 1))),
        (68, Act::RemoveContainer(100)),
        (69, Act::Admit(samples::container(1, 1))),
        (70, Act::Admit(samples::container(1, 1))),
        (71, Act::Repeat(samples::policy(1, 0, 1, 2), 127)),
        (72, Act::Admit(samples::policy(2, 1, 1, 1))),
        (73, Act::Admit(samples::policy(2, 1, 1, 1))),
        (74, Act::RemovePolicy(127)),
        (75, Act::Counts),
        (76, Act::Admit(samples::policy(2, 1, 1, 1))),
        (77, Act::Audit),
        (78, Act::Counts),
    ]
}

// Files: of full tables, of no entry and of one, into one byte too few, as many as they have, and more. Then batches of a block.
fn lending_cases() -> [(u64, Act); 13] {
    [
        (79, Act::Write(1025)),
        (80, Act::Open(samples::settings(1, 2))),
        (81, Act::Write(511)),
        (82, Act::Write(512)),
        (83, Act::Admit(samples::container(2, 1))),
        (84, Act::Write(1023)),
        (85, Act::Write(1025)),
        (86, Act::Batch(samples::container(2, 1), 511, 2)),
        (87, Act::Batch(samples::container(2, 1), 512, 1)),
        (88, Act::Batch(samples::container(2, 1), 0, 0)),
        (89, Act::Batch(samples::container(2, 1), 512, 2)),
        (
            90,
            Act::Batch(samples::spoiled(samples::container(2, 1)), 512, 2),
        ),
        (91, Act::Batch(samples::policy(1, 0, 1, 2), 512, 2)),
    ]
}

// Kept: the C interface: the numbers are those that C is answered; and the printer beside the case, of which a struct would be made anew
// for each case.
fn line(rt: &impl Print, case: u64, refusal: u64, value: u64) -> io::Result<()> {
    println!(rt; "{case} {refusal} {value}")
}

// An answer: the refusal's number is its top byte, and the value or the position is below.
fn show(rt: &impl Print, case: u64, answer: u64) -> io::Result<()> {
    line(
        rt,
        case,
        answer / 72057594037927936,
        answer % 72057594037927936,
    )
}

// The counts, a line for each.
fn show_counts(rt: &impl Print, case: u64, answer: u64) -> io::Result<()> {
    line(rt, case, 0, answer % 65536)?;
    line(rt, case, 0, answer / 65536 % 65536)?;
    line(rt, case, 0, answer / 4294967296)
}

fn open_other_size() -> u64 {
    let mut memory = [0u64; 5762];
    registry_c::bihokura_open(&mut memory, &samples::sealed(samples::settings(1, 2)))
}

fn repeat(memory: &mut [u64], made: Shape, times: u64) {
    let block = samples::sealed(made);
    for _ in 0..times {
        registry_c::bihokura_admit(memory, &block);
    }
}

fn show_written(rt: &impl Print, memory: &[u64], case: u64, room: usize) -> io::Result<()> {
    let mut bytes = [0u8; 1025];
    let answer = registry_c::bihokura_write(memory, &mut bytes[..room.min(1025)]);
    show(rt, case, answer)
}

// A batch: a line for the answer, one for the two numbers in the list, and one for the tally.
fn show_batch(
    rt: &impl Print,
    memory: &mut [u64],
    case: u64,
    blocks: &[u8],
    room: usize,
) -> io::Result<()> {
    let mut numbers = [9u16; 2];
    let mut tally = Tally {
        taken: 2,
        refused: u64::MAX,
    };
    let list = &mut numbers[..room.min(2)];
    let answer = registry_c::bihokura_admit_batch(memory, blocks, list, &mut tally);
    show(rt, case, answer)?;
    line(rt, case, u64::from(numbers[0]), u64::from(numbers[1]))?;
    line(rt, case, tally.taken, tally.refused)
}

fn run(rt: &impl Print, memory: &mut [u64], case: u64, act: Act) -> io::Result<()> {
    let answer = match act {
        Act::Open(made) => registry_c::bihokura_open(memory, &samples::sealed(made)),
        Act::OpenOtherSize => open_other_size(),
        Act::OpenShort => {
            registry_c::bihokura_open(memory, &samples::sealed(samples::settings(1, 2))[1..])
        }
        Act::Admit(made) => registry_c::bihokura_admit(memory, &samples::sealed(made)),
        Act::Reaches(from, to) => registry_c::bihokura_reaches(memory, from, to),
        Act::CarriesUser(slot, value) => registry_c::bihokura_carries_user(memory, slot, value),
        Act::RemoveContainer(slot) => registry_c::bihokura_remove_container(memory, slot),
        Act::RemovePolicy(slot) => registry_c::bihokura_remove_policy(memory, slot),
        Act::Rebuild => registry_c::bihokura_rebuild(memory),
        Act::Audit => registry_c::bihokura_audit(memory),
        Act::Counts => return show_counts(rt, case, registry_c::bihokura_counts(memory)),
        Act::Repeat(made, times) => {
            repeat(memory, made, times);
            return Ok(());
        }
        Act::Write(room) => return show_written(rt, memory, case, room),
        Act::Batch(made, bytes, room) => {
            let block = samples::sealed(made);
            return show_batch(rt, memory, case, &block[..bytes.min(512)], room);
        }
    };
    show(rt, case, answer)
}

fn run_each(rt: &impl Print, memory: &mut [u64], cases: &[(u64, Act)]) -> io::Result<()> {
    for (case, act) in cases {
        run(rt, memory, *case, *act)?;
    }
    Ok(())
}

fn run_all(rt: &impl Print, memory: &mut [u64]) -> io::Result<()> {
    run_each(rt, memory, &opening_cases())?;
    run_each(rt, memory, &container_cases())?;
    run_each(rt, memory, &policy_cases())?;
    run_each(rt, memory, &asking_cases())?;
    run_each(rt, memory, &freeing_cases())?;
    run_each(rt, memory, &filling_cases())?;
    run_each(rt, memory, &lending_cases())
}

fn main(rt: HostRuntime) -> io::Result<()> {
    let mut memory = [0u64; store::WORDS];
    run_all(&rt, &mut memory)
}
