// The pipes of the namespace.
ghost use Rattle.std.specs.Prelude.{◌≡◌, ◌<◌, ◌≤◌, ◌+◌, ◌-◌, ◌^◌, true, false, None, Some, IfOk, OnOk, OnErr, MatchOption, not, length, slice_set};
ghost use Rattle.sb_base.specs.Names.{is_name_of};
ghost use Rattle.sb_call.specs.Statuses.{success};
ghost use Rattle.sb_handles.specs.Effects.{IsDone};
ghost use Rattle.sb_handles.specs.Tables.{with_handle};
ghost use Rattle.sb_names.specs.Maps.{found};
ghost use Rattle.sb_services.specs.PipeKeeping.{AreNames, is_numbered, name_at, StandsUnder};
ghost use Rattle.sb_services.specs.Pipes.{Agrees, ArePipes, no_pipes, on_pipe, is_invalid, is_alike, create, fewer, closed, with_pipe, with_instance};

use crate::pipe_modes::{PipeForm, PipeMode};
use crate::pipe_rows::PipeRow;
use bitflags::Flags;
use sb_base::{NoMemory, Wide};
use sb_call::{ACCESS_DENIED, Answer, INSTANCE_NOT_AVAILABLE, INVALID_PARAMETER, SUCCESS};
use sb_handles::{Access, HandleTable, Held, Service, Sharing, pipe_handles_are_counted};
use sb_names::{NameMap, fold_name, names_fold, out_is_out};
use std::alloc::Global;
use std::marker::Model;

/// The pipes, each with its number of instances, and how many were ever made.
///
/// Pipe names have no parents and are compared folded. A pipe is gone with its last handle.
pub struct PipeService {
    // The pipes that are there.
    rows: NameMap<PipeRow>,
    // The name of each pipe as it was made: that of pipe n at place n - 1, until the pipe is gone.
    names: Vec<Option<Wide>>,
}

impl Drop for PipeService {
    fn drop(self) {
        let PipeService { rows: _, names: _ } = self;
    }
}

impl Model for PipeService {
    ghost use Rattle.std.specs.Prelude.{length};
    ghost use Rattle.sb_services.specs.PipeKeeping.{IsKept};
    ghost use Rattle.sb_services.specs.Pipes.{Pipes};

    ghost Value = { Pipes };

    ghost view = { λ s. record { rows = s.rows; made = length s.names.items } };

    ghost invariant = { λ s. IsKept s.names.items s.rows };
}

// A handle on the pipe of this number; pipes have neither access nor sharing.
fn on_pipe(number: u64) -> Held
    ensures { result ≡ on_pipe number }
{
    Held::new(Service::Pipe, number, Access::empty(), Sharing::empty())
}

// Whether the instances are out of range.
fn is_invalid(instances: u64) -> bool
    ensures { result ≡ is_invalid instances }
{
    !(1 <= instances && instances <= 255)
}

// Whether a pipe was made with these properties.
fn is_alike(row: PipeRow, mode: PipeMode, form: PipeForm, instances: u64) -> bool
    ensures { result ≡ is_alike row mode form instances }
{
    row.mode == mode && row.form == form && row.instances == instances
}

// The name with which the pipe of a number was made, while it is there.
fn name_of(names: &[Option<Wide>], number: u64) -> Option<&[u16]>
    ensures { MatchOption result (name_at names.now number ≡ None) (λ name. name_at names.now number ≡ Some name.now) }
{
    let place = number.checked_sub(1)?;
    match names.get(place as usize) {
        Some(Some(name)) => Some(name.as_units()),
        _ => None,
    }
}

// Forgets the name of the pipe of a number.
fn forget(names: &mut Vec<Option<Wide>>, number: u64)
    requires low { 1 ≤ number }
    requires high { number ≤ length names.old.items }
    ensures { names.new.items ≡ slice_set names.old.items (number - 1) None }
{
    names[(number - 1) as usize] = None;
}

// Takes one handle from the pipe of this number, which is there under this name. Returns whether it was the last one, so that
// the pipe is gone.
#[tactic(auto, using(crate::proofs::NumberedPipes::numbered_nowhere, crate::proofs::PipeDrops::own_number, crate::proofs::PipeDrops::dropped_one, crate::proofs::PipeDrops::there_still))]
fn drop_handle(rows: &mut NameMap<PipeRow>, name: &[u16], number: u64) -> bool
    requires under { StandsUnder name.now number rows.old }
    requires there { is_numbered rows.old number ≡ true }
    ensures rows { rows.new ≡ fewer rows.old number }
    ensures gone { result ≡ not (is_numbered rows.new number) }
{
    rows.establish_order();
    out_is_out::<PipeRow>();
    let Some(row) = rows.find(name) else {
        return false;
    };
    if row.handles > 1 {
        let handles = row.handles - 1;
        rows.replace(name, PipeRow { handles, ..row });
        false
    } else {
        rows.remove(name);
        true
    }
}

impl PipeService {
    /// No pipe is there, and none was made.
    pub fn new(alloc: Global) -> PipeService
        ensures { result ≡ no_pipes }
    {
        PipeService {
            rows: NameMap::new(alloc),
            names: Vec::new(alloc),
        }
    }

    /// How many pipes were ever made.
    pub fn made(&self) -> u64
        ensures { result ≡ self.now.made }
    {
        self.names.len() as u64
    }

    // Grants one more handle on a pipe that is there.
    fn add_instance(
        &mut self,
        handles: &mut HandleTable,
        target: u32,
        name: &[u16],
        row: PipeRow,
    ) -> Result<u64, NoMemory>
        requires there { found self.old.rows name.now ≡ Some row }
        requires room { row.handles < row.instances }
        ensures handle { IfOk result (λ handle. handle ≡ handles.old.table.granted + 1) }
        ensures service { OnOk result (self.new ≡ with_instance self.old name.now row) }
        ensures handles { OnOk result (handles.new.table ≡ with_handle handles.old.table target (on_pipe row.number)) }
        ensures err { OnErr result ((self.new ≡ self.old) × (handles.new.table ≡ handles.old.table)) }
    {
        let handle = handles.grant(target, on_pipe(row.number))?;
        let handles = row.handles + 1;
        self.rows.replace(name, PipeRow { handles, ..row });
        Ok(handle)
    }

    // Makes a pipe, and grants its first handle.
    fn add_pipe(
        &mut self,
        handles: &mut HandleTable,
        target: u32,
        name: &[u16],
        mode: PipeMode,
        form: PipeForm,
        instances: u64,
    ) -> Result<u64, NoMemory>
        requires name { is_name_of name.now ≡ true }
        requires absent { found self.old.rows name.now ≡ None }
        requires made { self.old.made < 2 ^ 63 }
        requires few { (1 ≤ instances) × (instances ≤ 255) }
        ensures handle { IfOk result (λ handle. handle ≡ handles.old.table.granted + 1) }
        ensures service { OnOk result (self.new ≡ with_pipe self.old name.now mode form instances) }
        ensures handles { OnOk result (handles.new.table ≡ with_handle handles.old.table target (on_pipe (self.old.made + 1))) }
        ensures err { OnErr result ((self.new ≡ self.old) × (handles.new.table ≡ handles.old.table)) }
    {
        names_fold();
        let alloc = *self.names.allocator();
        let key = fold_name(alloc, name)?;
        let kept = Wide::from_units(alloc, name)?;
        self.names.reserve(1)?;
        handles.reserve()?;
        let number = self.made() + 1;
        let row = PipeRow {
            number,
            mode,
            form,
            instances,
            handles: 1,
        };
        self.rows.add(name, key, row)?;
        self.names.push_reserved(Some(kept));
        Ok(handles.grant_reserved(target, on_pipe(number)))
    }

    /// Makes a pipe of this name and grants a handle on it, or grants one more handle on the pipe that is there. The statuses
    /// are those of Windows' `NtCreateNamedPipeFile`.
    ///
    /// The instances are 1 to 255: the pipe may have this many handles. Statuses, the first that applies: invalid parameter
    /// if the instances are out of range; access denied if the pipe was made with
    /// another mode, form or number of instances; instance not available if it has as many handles as it may have; success, with the number of its handles
    /// now as the extended word.
    ///
    /// # Errors
    /// `NoMemory` if the call would succeed and there was none for the pipe or the handle; then pipes and handles are as before.
    pub fn create(
        &mut self,
        handles: &mut HandleTable,
        target: u32,
        name: &[u16],
        mode: PipeMode,
        form: PipeForm,
        instances: u64,
    ) -> Result<Answer, NoMemory>
        requires name { is_name_of name.now ≡ true }
        requires made { self.old.made < 2 ^ 63 }
        requires agree { Agrees self.old handles.old.table }
        ensures effect { IfOk result (λ a. IsDone (create self.old handles.old.table target name.now mode form instances) self.new handles.new.table a) }
        ensures memory { OnErr result ((create self.old handles.old.table target name.now mode form instances).answer.status ≡ success) }
        ensures agree { Agrees self.new handles.new.table }
        ensures err { OnErr result ((self.new ≡ self.old) × (handles.new.table ≡ handles.old.table)) }
    {
        if is_invalid(instances) {
            return Ok(Answer::refusal(INVALID_PARAMETER));
        }
        self.establish_pipes();
        pipe_handles_are_counted();
        match self.rows.find(name) {
            Some(row) => {
                if !is_alike(row, mode, form, instances) {
                    return Ok(Answer::refusal(ACCESS_DENIED));
                }
                if row.handles == row.instances {
                    return Ok(Answer::refusal(INSTANCE_NOT_AVAILABLE));
                }
                let handle = self.add_instance(handles, target, name, row)?;
                Ok(Answer::with_word(SUCCESS, handle, row.handles + 1))
            }
            None => {
                let handle = self.add_pipe(handles, target, name, mode, form, instances)?;
                Ok(Answer::with_word(SUCCESS, handle, 1))
            }
        }
    }

    /// Takes one handle from the pipe of a number, once the handle table has closed it. A pipe whose last handle is closed
    /// is gone; if no pipe has that number nothing is changed.
    #[tactic(auto, using(crate::proofs::NamedPipes::kept_low, crate::proofs::NamedPipes::kept_high))]
    pub fn close(&mut self, number: u64)
        ensures { self.new ≡ closed self.old number }
    {
        if let Some(name) = name_of(&self.names, number) {
            if drop_handle(&mut self.rows, name, number) {
                forget(&mut self.names, number);
            }
        }
    }

    /// Establishes for a proof that no two pipes have one number, that each number is one of those ever made, that each pipe
    /// has 1 handle to as many as it may have, and that each name is a name. It does nothing.
    pub fn establish_pipes(&self)
        ensures made { ArePipes self.now }
        ensures named { AreNames self.now.rows }
    {
        let _count = self.names.len();
    }
}
