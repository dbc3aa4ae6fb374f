//! The start of a program: its memory and registers (execve(2); System V ABI, "Process Initialization").

ghost use Rattle.std.specs.List.{sum_by};
ghost use Rattle.std.specs.Prelude.{◌≡◌, ◌++◌, ◌≤◌, ◌<◌, ◌+◌, ◌*◌, ◌^◌, ◌-◌};
ghost use Rattle.std.specs.Prelude.{nat_le, SomeIff, OnOk, IfOk, All, length, fold, map};
ghost use Rattle.lx_abi.specs.Limits.{start_limit};
ghost use Rattle.rv_mem.specs.Memory.{written};
ghost use Rattle.rv_mem.specs.Mapping.{mapped as with_pages};
ghost use Rattle.rv_mem.specs.Mapping.{page_count};
ghost use Rattle.elf_image.specs.Images.{IsInRange, IsLaidOut, extent_of};
ghost use Rattle.elf_image.specs.Layout.{page_count as extents_count};
ghost use Rattle.lx_exec.specs.Rooms.{IsOn, IsMapped, IsOnStack, program_pages, segment_mapped};
ghost use Rattle.lx_proc.specs.Starts.{cost_of};
ghost use Rattle.lx_exec.specs.Programs.{strings as strings_of, addresses, vector_from, start_size};
ghost use Rattle.lx_exec.specs.Programs.{doublewords as bytes_of, with_segment, bare_memory, begun, started};
ghost use Rattle.lx_exec.specs.Programs.{highest_end as highest_end_of, first_heap, stub_image, booted, IsStart};

use crate::pages::{PAGE, pages_for};
use containers::Bytes;
use elf_image::{Image, Rights as SegmentRights, Segment, Segments};
use lx_abi::limits::{START_LIMIT, WORD_COST};
use lx_abi::sys;
use lx_proc::{Heap, UserState};
use rv_hart::Hart;
use rv_mem::{MemFault, Rights, Space};
use std::alloc::{AllocError, Global};

/// The stack's end, where the page stands to which handlers return.
const STACK_TOP: u64 = 0x3F_FFFF_F000;

const STACK_PAGES: u64 = 64;

/// rt_sigreturn: `li a7, 139`, `ecall`.
const RETURN_CODE: [u8; 8] = [0x93, 0x08, 0xB0, 0x08, 0x73, 0x00, 0x00, 0x00];

/// What a program's start may be refused, of which there is only memory.
fn short(fault: MemFault) -> AllocError
    requires { fault ≡ MemFault.Memory }
{
    match fault {
        MemFault::Memory => AllocError,
        MemFault::Unmapped(_) | MemFault::Forbidden(_) | MemFault::TooLarge => unreachable!(),
    }
}

/// Pages are mapped, and bytes loaded into them. There are few enough pages, and they have room for the bytes.
fn map_and_load(
    space: &mut Space,
    page: u64,
    pages: u64,
    rights: Rights,
    address: u64,
    bytes: &[u8],
) -> Result<(), AllocError>
    requires below { 4096 * page + 4096 * pages ≤ 2 ^ 38 }
    requires few { page_count (with_pages space.old (4096 * page) (4096 * pages) rights) ≤ 16384 }
    requires start { 4096 * page ≤ address }
    requires end { address + length bytes.now ≤ 4096 * page + 4096 * pages }
    ensures { OnOk result
        (space.new ≡ written (with_pages space.old (4096 * page) (4096 * pages) rights) address bytes.now) }
{
    match space.map(PAGE * page, pages, rights) {
        Err(fault) => Err(short(fault)),
        Ok(()) => load(space, address, bytes),
    }
}

/// Bytes are loaded where pages were mapped.
fn load(space: &mut Space, address: u64, bytes: &[u8]) -> Result<(), AllocError>
    requires { IsMapped space.old address (address + length bytes.now) }
    ensures { OnOk result (space.new ≡ written space.old address bytes.now) }
{
    match space.load(address, bytes) {
        Err(fault) => Err(short(fault)),
        Ok(()) => Ok(()),
    }
}

/// The stack and the return page.
fn bare(alloc: Global) -> Result<Space, AllocError>
    ensures { IfOk result (λ m. m ≡ bare_memory) }
{
    let stack = Rights {
        read: true,
        write: true,
        execute: false,
    };
    let code = Rights {
        read: true,
        write: false,
        execute: true,
    };
    let mut space = Space::new(alloc);
    map_and_load(
        &mut space,
        STACK_TOP / PAGE - STACK_PAGES,
        STACK_PAGES,
        stack,
        STACK_TOP,
        &[],
    )?;
    map_and_load(
        &mut space,
        STACK_TOP / PAGE,
        1,
        code,
        STACK_TOP,
        &RETURN_CODE,
    )?;
    Ok(space)
}

/// The pages that a segment touches, and its bytes.
#[tactic(auto, unfolding(crate::specs::Programs::with_segment))]
fn load_segment(space: &mut Space, segment: &Segment) -> Result<(), AllocError>
    requires in_range { IsInRange segment.now }
    requires few { page_count (segment_mapped space.old segment.now) ≤ 16384 }
    ensures { OnOk result (space.new ≡ with_segment space.old segment.now) }
{
    let rights = Rights {
        read: segment.rights.read,
        write: segment.rights.write,
        execute: segment.rights.execute,
    };
    let first = segment.address / PAGE;
    let last = (segment.address + segment.size - 1) / PAGE;
    let bytes = segment.bytes.as_slice();
    map_and_load(
        space,
        first,
        last + 1 - first,
        rights,
        segment.address,
        bytes,
    )
}

/// The segments of an image.
fn load_segments(space: &mut Space, segments: &[Segment]) -> Result<(), AllocError>
    requires in_range { All IsInRange segments.now }
    requires few { extents_count (map extent_of segments.now) ≤ 8192 }
    requires room { IsOn (program_pages segments.now) space.old }
    ensures { OnOk result (space.new ≡ fold with_segment space.old segments.now) }
{
    for segment in segments {
        load_segment(space, segment)?;
    }
    Ok(())
}

/// The words, each with its NUL.
fn push_strings(bytes: &mut Vec<u8>, words: &[Bytes]) -> Result<(), AllocError>
    ensures { OnOk result (bytes.new.items ≡ bytes.old.items ++ strings_of words.now) }
{
    for word in words {
        bytes.extend_from_slice(word.as_slice())?;
        bytes.push(0)?;
    }
    Ok(())
}

/// Where words that stand one after another begin.
fn push_addresses(vector: &mut Vec<u64>, words: &[Bytes], start: u64) -> Result<(), AllocError>
    requires { start + length (strings_of words.now) < 2 ^ 64 }
    ensures { OnOk result (vector.new.items ≡ vector.old.items ++ addresses start words.now) }
{
    let mut address = start;
    for word in words {
        vector.push(address)?;
        address += word.len() as u64 + 1;
    }
    Ok(())
}

/// Numbers as little-endian doublewords.
fn doublewords(alloc: Global, numbers: &[u64]) -> Result<Vec<u8>, AllocError>
    ensures { IfOk result (λ v. v.items ≡ bytes_of numbers.now) }
{
    let mut bytes = Vec::new(alloc);
    for number in numbers {
        bytes.extend_from_slice(&number.to_le_bytes())?;
    }
    Ok(bytes)
}

/// What stands on the stack when a program starts.
#[derive(Drop)]
struct Start {
    strings: Vec<u8>,
    /// Where the strings begin.
    address: u64,
    vector: Vec<u64>,
    sp: u64,
}

/// The words of argv and env.
fn strings(alloc: Global, argv: &[Bytes], env: &[Bytes]) -> Result<Vec<u8>, AllocError>
    ensures { IfOk result (λ v. v.items ≡ strings_of argv.now ++ strings_of env.now) }
{
    let mut strings = Vec::new(alloc);
    push_strings(&mut strings, argv)?;
    push_strings(&mut strings, env)?;
    Ok(strings)
}

/// How many bytes words have, with their NULs.
fn strings_len(words: &[Bytes]) -> u64
    requires { length (strings_of words.now) < 2 ^ 64 }
    ensures { result ≡ length (strings_of words.now) }
{
    let mut len = 0;
    for word in words {
        len += word.len() as u64 + 1;
    }
    len
}

/// The vector of a start whose strings begin at an address.
fn vector(
    alloc: Global,
    argv: &[Bytes],
    env: &[Bytes],
    address: u64,
) -> Result<Vec<u64>, AllocError>
    requires { address + length (strings_of argv.now) + length (strings_of env.now) < 2 ^ 64 }
    ensures { IfOk result (λ v. v.items ≡ vector_from address argv.now env.now) }
{
    let mut vector = Vec::new(alloc);
    vector.push(argv.len() as u64)?;
    push_addresses(&mut vector, argv, address)?;
    vector.push(0)?;
    push_addresses(&mut vector, env, address + strings_len(argv))?;
    vector.extend_from_slice(&[0, 6, PAGE, 0, 0])?;
    Ok(vector)
}

/// The strings and the vector of a program's start.
fn lay_out(alloc: Global, argv: &[Bytes], env: &[Bytes]) -> Result<Start, AllocError>
    requires { start_size argv.now env.now ≤ start_limit }
    ensures { IfOk result (λ s. IsStart s argv.now env.now) }
{
    let strings = strings(alloc, argv, env)?;
    let len = strings.as_slice().len() as u64;
    let address = STACK_TOP - len;
    let vector = vector(alloc, argv, env, address)?;
    let size = 8 * vector.as_slice().len() as u64;
    let sp = (address - size) / 16 * 16;
    Ok(Start {
        strings,
        address,
        vector,
        sp,
    })
}

/// Where the highest segment ends.
fn highest_end(segments: &[Segment]) -> u64
    requires { All IsInRange segments.now }
    ensures value { result ≡ highest_end_of segments.now }
    ensures small { result ≤ 2 ^ 37 }
{
    let mut end = 0;
    for segment in segments {
        end = end.max(segment.address + segment.size);
    }
    end
}

/// A heap without a byte, from the page behind the segments on.
fn empty_heap(image: &Image) -> Heap
    requires { IsLaidOut image.now }
    ensures { result ≡ first_heap image.now }
{
    let start = PAGE * pages_for(highest_end(image.segments.as_slice()));
    Heap { start, end: start }
}

/// The body of a process that begins with an image, over what is laid out for its stack.
fn begin(alloc: Global, image: &Image, start: &Start) -> Result<UserState, AllocError>
    requires laid_out { IsLaidOut image.now }
    requires on_stack { IsOnStack start.now }
    ensures { IfOk result (λ b. b ≡ begun image.now start.now) }
{
    let mut memory = bare(alloc)?;
    load_segments(&mut memory, image.segments.as_slice())?;
    load(&mut memory, start.address, start.strings.as_slice())?;
    let vector = doublewords(alloc, start.vector.as_slice())?;
    load(&mut memory, start.sp, vector.as_slice())?;
    let mut hart = Hart::new(image.entry);
    hart.registers[2] = start.sp;
    Ok(UserState {
        hart,
        memory,
        heap: empty_heap(image),
        interrupted: None,
    })
}

/// The body of a process that begins with a program.
#[tactic(auto, unfolding(crate::specs::Programs::start_memory))]
pub fn begin_program(
    alloc: Global,
    image: &Image,
    argv: &[Bytes],
    env: &[Bytes],
) -> Result<UserState, AllocError>
    requires fits { start_size argv.now env.now ≤ start_limit }
    requires laid_out { IsLaidOut image.now }
    ensures { IfOk result (λ b. b ≡ started image.now argv.now env.now) }
{
    let start = lay_out(alloc, argv, env)?;
    begin(alloc, image, &start)
}

/// What is left of a budget of bytes after these words, each with its NUL and its pointer.
fn spend(budget: usize, words: &[Bytes]) -> Option<usize>
    ensures { SomeIff result (sum_by cost_of words.now ≤ budget) (budget - sum_by cost_of words.now) }
{
    let mut left = budget;
    for word in words {
        left = left.checked_sub(word.len())?.checked_sub(WORD_COST)?;
    }
    Some(left)
}

/// The words and the environment fit the start of a program.
pub fn start_fits(argv: &[Bytes], env: &[Bytes]) -> bool
    ensures { result ≡ nat_le (start_size argv.now env.now) start_limit }
{
    // argc, two null pointers and the auxiliary vector take seven doublewords
    match spend(START_LIMIT - 7 * 8, argv) {
        None => false,
        Some(left) => spend(left, env).is_some(),
    }
}

/// The first program of process 1: execve(argv[0], argv, env), and exit_group(127) where that fails.
const STUB: [u8; 16] = [
    0x73, 0x00, 0x00, 0x00, 0x13, 0x05, 0xF0, 0x07, 0x93, 0x08, 0xE0, 0x05, 0x73, 0x00, 0x00, 0x00,
];

/// The image of the first program.
fn stub(alloc: Global) -> Result<Image, AllocError>
    ensures image { IfOk result (λ i. i ≡ stub_image) }
    ensures laid_out { IfOk result IsLaidOut }
{
    let rights = SegmentRights {
        read: true,
        write: false,
        execute: true,
    };
    let bytes = Bytes::from_vec(STUB.to_vec(alloc)?);
    let mut segments = Vec::new(alloc);
    segments.push(Segment {
        address: 0x10000,
        size: 16,
        rights,
        bytes,
    })?;
    Ok(Image {
        entry: 0x10000,
        segments: Segments::from_vec(segments),
    })
}

/// The body of process 1.
#[tactic(auto, unfolding(crate::specs::Programs::start_memory))]
pub fn begin_stub(alloc: Global, argv: &[Bytes], env: &[Bytes]) -> Result<UserState, AllocError>
    requires { start_size argv.now env.now ≤ start_limit }
    ensures { IfOk result (λ b. b ≡ booted argv.now env.now) }
{
    let image = stub(alloc)?;
    let start = lay_out(alloc, argv, env)?;
    let mut user = begin(alloc, &image, &start)?;
    user.hart.registers[10] = start.address;
    user.hart.registers[11] = start.sp + 8;
    user.hart.registers[12] = start.sp + 16 + 8 * argv.len() as u64;
    user.hart.registers[17] = sys::SYS_EXECVE;
    Ok(user)
}
