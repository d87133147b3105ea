//! An undo history that shows what each step did: a step keeps the version that it began with, and
//! the cells that it touched.
use rart_changes::{KeyChange, TrackedTree};
use rart_versioned::{KeyTrait, VectorKey, VersionedAdaptiveRadixTree};
use std::alloc::{AllocError, Global};

type Cells = VersionedAdaptiveRadixTree<VectorKey, u64>;

type Step = TrackedTree<VectorKey, u64>;

/// A sheet of cells, and the steps that can be taken back, the last one at the end.
#[derive(Drop)]
struct Sheet {
    cells: Cells,
    steps: Vec<Step>,
}

impl Sheet {
    fn new(alloc: Global) -> Sheet {
        Sheet {
            cells: Cells::new(alloc),
            steps: Vec::new(alloc),
        }
    }

    // Sets cells, or empties those without a value, in one step.
    fn change(&mut self, alloc: Global, cells: &[(&str, Option<u64>)]) -> Result<(), AllocError> {
        let mut step = Step::begin(alloc, &self.cells)?;
        for (name, value) in cells {
            set(&mut step, *name, *value)?;
        }
        let after = step.current().clone()?;
        self.steps.push(step)?;
        self.cells = after;
        Ok(())
    }

    // Takes the last step back, if there is one.
    fn undo(&mut self) -> Result<(), AllocError> {
        if let Some(step) = self.steps.last() {
            let before = step.base().clone()?;
            self.steps.pop();
            self.cells = before;
        }
        Ok(())
    }

    fn print(&self, rt: &HostRuntime, title: &str) -> anyhow::Result<()> {
        println!(rt; "{title}, {} to undo", self.steps.len())?;
        for item in self.cells.iter()? {
            let (cell, value) = item?;
            println!(rt; "  {} {value}", str::from_utf8(cell.as_ref())?)?;
        }
        Ok(())
    }

    fn print_steps(&self, rt: &HostRuntime) -> anyhow::Result<()> {
        for (number, step) in self.steps.iter().enumerate() {
            println!(rt; "step {number}")?;
            for change in &step.changes()? {
                print_change(rt, change)?;
            }
        }
        Ok(())
    }
}

// Sets a cell, or empties it, where there is room for a change.
fn set(step: &mut Step, cell: &str, value: Option<u64>) -> Result<(), AllocError> {
    if step.current().version() < u64::MAX {
        match value {
            Some(value) => {
                step.insert(cell, value)?;
            }
            None => {
                step.delete(cell)?;
            }
        }
    }
    Ok(())
}

fn print_change(rt: &HostRuntime, change: &KeyChange<VectorKey, u64>) -> anyhow::Result<()> {
    let cell = str::from_utf8(change.key.as_ref())?;
    match (change.before, change.after) {
        (Some(before), Some(after)) => println!(rt; "  {cell} from {before} to {after}")?,
        (Some(before), None) => println!(rt; "  {cell} was {before}")?,
        (None, Some(after)) => println!(rt; "  {cell} is {after}")?,
        (None, None) => {}
    }
    Ok(())
}

pub fn show(rt: &HostRuntime) -> anyhow::Result<()> {
    let alloc = rt.alloc();
    let mut sheet = Sheet::new(alloc);
    sheet.change(alloc, &[("a1", Some(1)), ("b1", Some(2))])?;
    sheet.change(alloc, &[("a1", Some(3)), ("b1", None)])?;
    sheet.print(rt, "sheet")?;
    sheet.print_steps(rt)?;
    sheet.undo()?;
    sheet.print(rt, "sheet, one step back")?;
    sheet.undo()?;
    sheet.print(rt, "sheet, all steps back")
}
