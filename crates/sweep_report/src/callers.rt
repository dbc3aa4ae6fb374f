//! The functions in which the calls of a run were made, as far as symbol tables tell.

use containers::Map;
use std::alloc::{AllocError, Global};

/// A process's calls with one number, in their order: of each the place of its function among the names.
#[derive(Drop)]
struct Made {
    number: u64,
    functions: Vec<Option<usize>>,
}

/// A process's calls.
#[derive(Drop)]
struct Process {
    made: Vec<Made>,
}

/// The functions in which calls were made.
#[derive(Drop)]
pub struct Callers {
    /// The names of functions, each once.
    names: Vec<String>,
    processes: Map<Process>,
}

impl Process {
    /// The place of its calls with this number.
    fn place(&self, number: u64) -> Option<usize> {
        self.made.iter().position(|made| made.number == number)
    }

    fn functions(&self, number: u64) -> Option<&[Option<usize>]> {
        let place = self.place(number)?;
        Some(self.made.get(place)?.functions.as_slice())
    }

    fn add(
        &mut self,
        alloc: Global,
        number: u64,
        function: Option<usize>,
    ) -> Result<(), AllocError> {
        if let Some(place) = self.place(number) {
            if let Some(made) = self.made.get_mut(place) {
                made.functions.push(function)?;
            }
            return Ok(());
        }
        let mut functions = Vec::new(alloc);
        functions.push(function)?;
        self.made.push(Made { number, functions })?;
        Ok(())
    }
}

impl Callers {
    /// No calls.
    pub fn new(alloc: Global) -> Self {
        Callers {
            names: Vec::new(alloc),
            processes: Map::new(alloc),
        }
    }

    /// The place that a name has among the names, or gets.
    pub fn place_of(&mut self, alloc: Global, name: &str) -> Result<usize, AllocError> {
        if let Some(place) = self.names.iter().position(|one| one.as_str() == name) {
            return Ok(place);
        }
        let place = self.names.len();
        self.names.push(String::from_str(alloc, name)?)?;
        Ok(place)
    }

    /// The next call of a process with a number was made in the function whose name has this place, if that is known.
    pub fn add(
        &mut self,
        alloc: Global,
        pid: u32,
        number: u64,
        function: Option<usize>,
    ) -> Result<(), AllocError> {
        if self.processes.get(pid).is_none() {
            let process = Process {
                made: Vec::new(alloc),
            };
            self.processes.insert(pid, process)?;
        }
        match self.processes.get_mut(pid) {
            Some(process) => process.add(alloc, number, function),
            None => Ok(()),
        }
    }

    /// The function in which the nth call of a process with a number was made, if it is known.
    pub fn function_of(&self, pid: u32, number: u64, n: u64) -> Option<&str> {
        let functions = self.processes.get(pid)?.functions(number)?;
        let place = *functions.get(usize::try_from(n.checked_sub(1)?).ok()?)?;
        Some(self.names.get(place?)?.as_str())
    }
}
