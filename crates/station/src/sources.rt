//! Where the steps of a station come from: its input, and the script of its device.

ghost use Rattle.std.specs.Prelude.{◌≡◌, IfOk};
ghost use Rattle.station.specs.Sources.{GivesBehind, count_after, plant_ms, step_of, typed_of};
ghost use Rattle.station.specs.Times.{is_over, pause_ms};

use crate::script::{Look, ScriptLine, ScriptState};
use crate::step::{LifeEnd, StationStep};
use cip_events::Event;
use cip_tables::Device;
use cip_types::OutOfMemory;
use station_lines::{CallLines, InputLine, NextLine, read_line};
use station_record::IdSupply;
use std::alloc::Global;

/// A station looks for what is typed at least so often, in milliseconds, and earlier if its source wakes the port.
const LOOK_MS: u64 = 1_000;

/// The steps of a station. Contracts see them as a relation: from the source, at a time of the station's clock and with the table of its
/// device, by the step that it gives, to the source behind it.
pub trait StepSource {
    ghost use Rattle.std.specs.Prelude.{ℕ};
    ghost use Rattle.cip_tables.specs.declared.table.DeviceTable.{DeviceTable};
    ghost use Rattle.station.specs.declared.step.StationStep.{StationStep};

    ghost gives: { Self → ℕ → DeviceTable → StationStep → Self → Type 0 };

    /// What the station does next, so many milliseconds after its life began, with this device. Never waits. The fault: an
    /// allocation was refused.
    fn next_step<D: Device>(&mut self, now_ms: u64, device: &D) -> Result<StationStep, OutOfMemory>
        ensures { IfOk result (λ step. gives self.old now_ms (D.table device.now) step self.new) };
}

/// The steps that are typed. Contracts see them as a relation, as those of a `StepSource`.
pub trait TypedSteps {
    ghost use Rattle.std.specs.Prelude.{Option};
    ghost use Rattle.station.specs.declared.step.StationStep.{StationStep};

    ghost types: { Self → Option StationStep → Self → Type 0 };

    /// The next step that was typed; None if there is none now. Never waits. The fault: an allocation was refused.
    fn next_typed(&mut self) -> Result<Option<StationStep>, OutOfMemory>
        ensures { IfOk result (λ step. types self.old step self.new) };
}

/// The steps that the lines of an input have a station do. Here a text becomes a call.
#[derive(Drop)]
pub struct InputSteps<L> {
    alloc: Global,
    lines: L,
    count: u64,
}

impl<L: CallLines> InputSteps<L> {
    /// The steps of these lines.
    pub fn new(alloc: Global, lines: L) -> InputSteps<L>
    where
        L: Drop,
    {
        InputSteps {
            alloc,
            lines,
            count: 0,
        }
    }
}

impl<L: CallLines> TypedSteps for InputSteps<L> {
    ghost use Rattle.station.specs.Sources.{Types};

    ghost types = { λ old step new. Types L.has old step new };

    fn next_typed(&mut self) -> Result<Option<StationStep>, OutOfMemory> {
        let next = self.lines.next_line()?;
        typed_of(self.alloc, &mut self.count, next)
    }
}

/// The step of what an input has now, behind so many lines, which are counted. The only fault is a refused allocation.
fn typed_of(
    alloc: Global,
    count: &mut u64,
    next: NextLine,
) -> Result<Option<StationStep>, OutOfMemory>
    ensures step { IfOk result (λ step. step ≡ typed_of count.old next) }
    ensures counted { count.new ≡ count_after count.old next }
{
    match next {
        NextLine::End => Ok(Some(StationStep::End(LifeEnd::InputEnd))),
        NextLine::Nothing => Ok(None),
        NextLine::Line(line) => {
            *count = count.saturating_add(1);
            let said = read_line(alloc, line.as_slice())?;
            Ok(Some(step_of(said, *count)))
        }
    }
}

/// The step of a line of this number.
fn step_of(said: InputLine, line: u64) -> StationStep
    ensures { result ≡ step_of said line }
{
    match said {
        InputLine::Skipped => StationStep::Wait { ms: 0 },
        InputLine::Call(event) => StationStep::Call(event),
        InputLine::Attribute(call) => StationStep::Ask(call),
        InputLine::Status => StationStep::Status,
        InputLine::Numbers => StationStep::Numbers,
        InputLine::NoCall => StationStep::NoCall { line },
    }
}

/// The steps of a device in one life: first what its script decides at a look at the device, then what is typed, then what its script
/// has due. A station without a script has an empty one.
#[derive(Drop)]
pub struct DeviceSteps<'a, T> {
    alloc: Global,
    script: &'a [ScriptLine],
    state: ScriptState,
    typed: T,
    /// When the life began, in milliseconds since the plant began.
    begun_ms: u64,
    /// When the life is over, in milliseconds since it began, if not only what is typed ends it.
    end_ms: Option<u64>,
}

impl<'a, T: TypedSteps> DeviceSteps<'a, T> {
    /// The steps of a device in a life that begins at this time of its plant or station, and is over so many milliseconds later if it
    /// has an end. Its script was taken so far.
    pub fn scripted(
        alloc: Global,
        script: &'a [ScriptLine],
        state: ScriptState,
        typed: T,
        begun_ms: u64,
        end_ms: Option<u64>,
    ) -> DeviceSteps<'a, T>
    where
        T: Drop,
    {
        DeviceSteps {
            alloc,
            script,
            state,
            typed,
            begun_ms,
            end_ms,
        }
    }

    /// The steps of a device without a script, whose life is over at this time, if it has an end.
    pub fn unscripted(alloc: Global, typed: T, end_ms: Option<u64>) -> DeviceSteps<'a, T>
    where
        T: Drop,
    {
        DeviceSteps {
            alloc,
            script: &[],
            state: ScriptState::none(alloc),
            typed,
            begun_ms: 0,
            end_ms,
        }
    }

    /// How far the script was taken, and how its lines went.
    pub fn state(&self) -> &ScriptState
        ensures { result.now ≡ self.now.state }
    {
        &self.state
    }

    /// What the script has at a look, so many milliseconds after the life began.
    fn look<'b, D: Device>(&self, now_ms: u64, device: &'b D) -> Look<'b, D>
    where
        'a: 'b,
        ensures script { result.script.now ≡ self.now.script.now }
        ensures time { result.now_ms ≡ plant_ms self.now.begun_ms now_ms }
        ensures device { result.device.now ≡ device.now }
    {
        Look {
            alloc: self.alloc,
            script: self.script,
            now_ms: self.begun_ms.saturating_add(now_ms),
            device,
        }
    }

    /// What was typed, or else what the script has due, so many milliseconds after the life began.
    fn step_behind<D: Device>(
        &mut self,
        now_ms: u64,
        look: &Look<'_, D>,
    ) -> Result<StationStep, OutOfMemory>
        requires script { look.now.script.now ≡ self.old.script.now }
        requires time { look.now.now_ms ≡ plant_ms self.old.begun_ms now_ms }
        ensures { IfOk result (λ step.
            GivesBehind T.types self.old now_ms (D.table look.now.device.now) step self.new) }
    {
        if let Some(step) = self.typed.next_typed()? {
            return Ok(step);
        }
        if let Some(step) = look.due_step(&mut self.state)? {
            return Ok(step);
        }
        let most_ms = pause_ms(now_ms, self.end_ms);
        let ms = look.wait_ms(&self.state, most_ms);
        Ok(StationStep::Wait { ms })
    }
}

impl<'a, T: TypedSteps> StepSource for DeviceSteps<'a, T> {
    ghost use Rattle.station.specs.Sources.{Gives};

    ghost gives = { λ old now table step new. Gives T.types old now table step new };

    fn next_step<D: Device>(
        &mut self,
        now_ms: u64,
        device: &D,
    ) -> Result<StationStep, OutOfMemory> {
        if is_over(now_ms, self.end_ms) {
            return Ok(StationStep::End(LifeEnd::Over));
        }
        let look = self.look(now_ms, device);
        if let Some(step) = look.decided_step(&mut self.state)? {
            return Ok(step);
        }
        self.step_behind(now_ms, &look)
    }
}

/// The steps of a source, before which the device takes each further block of connection ids that its supply has.
#[derive(Drop)]
pub struct SuppliedSteps<S, I> {
    source: S,
    supply: I,
}

impl<S: StepSource, I: IdSupply> SuppliedSteps<S, I> {
    /// The steps of this source, with this supply.
    pub fn new(source: S, supply: I) -> SuppliedSteps<S, I>
    where
        S: Drop,
        I: Drop,
    {
        SuppliedSteps { source, supply }
    }

    /// The source.
    pub fn source(&self) -> &S
        ensures { result.now ≡ self.now.source }
    {
        &self.source
    }
}

impl<S: StepSource, I: IdSupply> StepSource for SuppliedSteps<S, I> {
    ghost use Rattle.station.specs.Sources.{GivesSupplied};

    ghost gives = { λ old now table step new. GivesSupplied S.gives I.supplies old now table step new };

    fn next_step<D: Device>(
        &mut self,
        now_ms: u64,
        device: &D,
    ) -> Result<StationStep, OutOfMemory> {
        match self.supply.next_block(device.totals().ids_left) {
            Some(block) => Ok(StationStep::Call(Event::Ids { block })),
            None => self.source.next_step(now_ms, device),
        }
    }
}

/// Whether the time of a life is over.
fn is_over(now_ms: u64, end_ms: Option<u64>) -> bool
    ensures { result ≡ is_over now_ms end_ms }
{
    match end_ms {
        Some(end) => end <= now_ms,
        None => false,
    }
}

/// The milliseconds that a turn waits at most: until the source is asked again, or the end.
pub(crate) fn pause_ms(now_ms: u64, end_ms: Option<u64>) -> u64
    ensures { result ≡ pause_ms now_ms end_ms }
{
    match end_ms {
        Some(end) => LOOK_MS.min(end.saturating_sub(now_ms)),
        None => LOOK_MS,
    }
}
