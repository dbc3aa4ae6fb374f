//! In which functions the calls of the run without a failure are made.

use crate::events::{Event, Events};
use crate::programs::Programs;
use crate::tracing::{kernel, schedule};
use elf_symbols::{Function, caller_of, functions_of, name_of};
use lx_abi::GuestFile;
use lx_abi::calls::call_name;
use plain_run::run;
use std::alloc::{AllocError, Global};
use sweep_report::callers::Callers;
use sweep_rows::Setup;

/// From where a call is made, and the place of its function's name.
#[derive(Clone, Copy, Debug, PartialEq, Eq)]
struct Site {
    program: usize,
    number: u64,
    pc: u64,
    ra: u64,
    function: Option<usize>,
}

/// The functions of each file's symbol table.
fn tables(alloc: Global, files: &[GuestFile]) -> Result<Vec<Vec<Function>>, AllocError> {
    let mut tables = Vec::new(alloc);
    for file in files {
        tables.push(functions_of(alloc, file.content.as_slice())?)?;
    }
    Ok(tables)
}

/// The events of the run without a failure, of a boot that is accepted.
fn events_of(alloc: Global, setup: &Setup) -> Result<Vec<Event>, AllocError> {
    let mut schedule = schedule(alloc, setup.turns.as_slice(), setup.limit)?;
    let mut kernel = kernel(alloc, &setup.boot)?;
    let mut events = Events::new(alloc);
    let ran = run(&mut kernel, &mut schedule, &mut events);
    drop(kernel);
    match ran {
        Ok(()) => Ok(events.into_items()),
        Err(_) => Err(AllocError),
    }
}

/// A function's name, where a line can have it as a field: letters, digits and signs.
fn shown_name(name: &[u8]) -> Option<&str> {
    let text = str::from_utf8(name).ok()?;
    let is_shown = !text.is_empty() && text.bytes().all(|byte| byte.is_ascii_graphic());
    if is_shown { Some(text) } else { None }
}

/// The name of the function that makes a call, of a program with these functions.
fn name_at<'f>(
    bytes: &'f [u8],
    functions: &[Function],
    number: u64,
    pc: u64,
    ra: u64,
) -> Option<&'f str> {
    let call = call_name(number).unwrap_or("");
    let function = caller_of(bytes, functions, call.as_bytes(), pc, ra)?;
    shown_name(name_of(bytes, function))
}

/// What is known of a run's calls so far.
#[derive(Drop)]
struct Calling {
    /// The functions of each file's symbol table.
    tables: Vec<Vec<Function>>,
    /// The sites that were met, each once.
    met: Vec<Site>,
    callers: Callers,
}

impl Calling {
    /// The place of the name of the function that makes a call, of the program in this place among the files.
    fn find(
        &mut self,
        alloc: Global,
        files: &[GuestFile],
        program: usize,
        number: u64,
        pc: u64,
        ra: u64,
    ) -> Result<Option<usize>, AllocError> {
        let (Some(file), Some(functions)) = (files.get(program), self.tables.get(program)) else {
            return Ok(None);
        };
        let bytes = file.content.as_slice();
        match name_at(bytes, functions.as_slice(), number, pc, ra) {
            Some(name) => Ok(Some(self.callers.place_of(alloc, name)?)),
            None => Ok(None),
        }
    }

    /// The same, looked up once for each site.
    fn function_at(
        &mut self,
        alloc: Global,
        files: &[GuestFile],
        program: usize,
        number: u64,
        pc: u64,
        ra: u64,
    ) -> Result<Option<usize>, AllocError> {
        let met = self.met.iter().find(|site| {
            site.pc == pc && site.ra == ra && site.number == number && site.program == program
        });
        if let Some(site) = met {
            return Ok(site.function);
        }
        let function = self.find(alloc, files, program, number, pc, ra)?;
        self.met.push(Site {
            program,
            number,
            pc,
            ra,
            function,
        })?;
        Ok(function)
    }

    /// Takes an event in, where a process with this program enters a call.
    fn hear(
        &mut self,
        alloc: Global,
        files: &[GuestFile],
        program: Option<usize>,
        event: &Event,
    ) -> Result<(), AllocError> {
        let Event::Enters {
            pid,
            number,
            pc,
            ra,
        } = event
        else {
            return Ok(());
        };
        let function = match program {
            Some(program) => self.function_at(alloc, files, program, *number, *pc, *ra)?,
            None => None,
        };
        self.callers.add(alloc, *pid, *number, function)
    }
}

/// The process of an event that enters a call.
fn entering(event: &Event) -> Option<u32> {
    match event {
        Event::Enters { pid, .. } => Some(*pid),
        Event::Asks { .. } | Event::Executes { .. } | Event::Bears { .. } => None,
    }
}

/// Where the calls of events were made.
fn callers_in(
    alloc: Global,
    files: &[GuestFile],
    tables: Vec<Vec<Function>>,
    events: &[Event],
) -> Result<Callers, AllocError> {
    let mut programs = Programs::before(alloc, events)?;
    let mut calling = Calling {
        tables,
        met: Vec::new(alloc),
        callers: Callers::new(alloc),
    };
    for event in events {
        let program = entering(event).and_then(|pid| programs.program_of(pid));
        calling.hear(alloc, files, program, event)?;
        programs.hear(files, event)?;
    }
    Ok(calling.callers)
}

/// The functions in which the calls of the run without a failure are made, as far as symbol tables of the boot's files
/// tell. Where no file has one, the run isn't made.
pub fn callers(alloc: Global, setup: &Setup) -> Result<Callers, AllocError> {
    let files = setup.boot.files.as_slice();
    let tables = tables(alloc, files)?;
    if tables.iter().all(|functions| functions.is_empty()) {
        return Ok(Callers::new(alloc));
    }
    let events = events_of(alloc, setup)?;
    callers_in(alloc, files, tables, events.as_slice())
}
