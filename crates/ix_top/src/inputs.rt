// Reads the three inputs of a play, each with its meaning before the next.
ghost use Rattle.std.specs.Prelude.{◌≡◌, ◌≢◌, ◌≤◌, ◌<◌, ◌^◌, List, ℕ, length, map, IfOk, IfErr, OnOk, IsErrOf, Some, Ok, Err};
ghost use Rattle.std.specs.Io.KnownBytes.{IsAtEnd};
ghost use Rattle.ix_base.specs.declared.role.Role.TheVariants as role;
ghost use Rattle.ix_base.specs.declared.role.Kind.TheVariants.{Reading, Writing};
ghost use Rattle.ix_base.specs.Host.{Rose, Reads};
ghost use Rattle.ix_conf.specs.Settings.{conf_of, settings_of};
ghost use Rattle.ix_script.specs.Script.{script_of};
ghost use Rattle.ix_playdef.specs.Own.{own_frame};
ghost use Rattle.ix_engine.specs.Courses.{IsWireFor};
ghost use Rattle.ix_top.specs.Top.{conf_input, settings_read, capture_input, script_input, entries_read, play_meaning, Given, Refuses, IsStop, Tells, AllRead, WritesNothing, KeepsOthers};

use crate::reading::{ReadError, load};
use crate::records::Records;
use crate::status::{
    CaptureRefusal, ConfRefusal, ScriptRefusal, Status, conf_status, script_status,
};
use ix_base::{Bytes, Host, NoMemory, Role};
use ix_check::Verdict;
use ix_conf::{Conf, read_conf};
use ix_playdef::Reply;
use ix_run::Gate;
use ix_script::{Entry, read_script};
use ix_trace::Report;
use std::alloc::Global;
use std::marker::Model;
use std::sync::Wait;
use std::thread::Threads;

const CONF_LIMIT: usize = 65_536;

const CAPTURE_LIMIT: usize = 67_108_864;

const SCRIPT_LIMIT: usize = 8_388_608;

/// What the three inputs of a play are.
#[derive(Drop)]
pub struct Inputs {
    conf: Conf,
    records: Records,
    entries: Vec<Entry>,
}

impl Model for Inputs {
    ghost use Rattle.ix_conf.specs.Settings.{settings_of};
    ghost use Rattle.ix_engine.specs.Courses.{IsWireFor};
    ghost use Rattle.ix_top.specs.Top as meaning;

    ghost Value = { meaning.Inputs };

    ghost view = { λ i. record { settings = settings_of i.conf; frames = i.records; entries = i.entries.items } };

    ghost invariant = { λ i. IsWireFor (settings_of i.conf) i.records i.entries.items };
}

impl Inputs {
    ghost use Rattle.std.specs.Prelude.{◌≡◌, All, IfOk};
    ghost use Rattle.std.specs.Bool.{Decides};
    ghost use Rattle.ix_check.specs.Verdict.{Fit, IsVerdict, is_yes};
    ghost use Rattle.ix_playdef.specs.Replies.{IsShort};
    ghost use Rattle.ix_fits.specs.Fits.{Fits};
    ghost use Rattle.ix_fits.specs.Replies.{reply_file};

    /// The wire list.
    pub fn entries(&self) -> &[Entry]
        ensures { result.now ≡ self.now.entries }
    {
        self.entries.as_slice()
    }

    /// Plays them: the report, and the replies in their order.
    pub fn play<R: Threads + Wait + Sync, G: Gate + Sync>(
        self,
        rt: &R,
        alloc: Global,
        gate: &G,
    ) -> Result<(Report, Vec<Reply>), NoMemory>
        ensures fits { IfOk result (λ told. Fits self.settings self.frames self.entries told.0 (reply_file self.entries told.1.items)) }
        ensures short { IfOk result (λ told. All IsShort told.1.items) }
    {
        let Inputs {
            conf,
            records,
            entries,
        } = self;
        records.play(rt, alloc, &conf, entries, gate)
    }

    /// Whether a trace and a file of replies are those of a play of them.
    pub fn check(&self, alloc: Global, replies: &[u8], trace: &[u8]) -> Result<Verdict, NoMemory>
        ensures decides { IfOk result (λ verdict. Decides (is_yes verdict) (Fit self.now.settings self.now.frames self.now.entries replies.now trace.now)) }
        ensures finding { IfOk result (λ verdict. IsVerdict self.now.settings self.now.frames self.now.entries replies.now trace.now verdict) }
    {
        let entries = self.entries.as_slice();
        self.records
            .check(alloc, &self.conf, entries, replies, trace)
    }
}

/// What the three inputs are, or the status that stops the reading.
pub fn read_inputs<H: Host>(
    alloc: Global,
    host: &mut H,
    conf: &str,
    script: &str,
    capture: &str,
) -> Result<Inputs, Status>
    ensures end { OnOk result (AllRead (H.state host.new)) }
    ensures ok { IfOk result (λ inputs. (g : Given) → Tells (H.state host.old) g → play_meaning g ≡ Ok inputs) }
    ensures err { IfErr result (λ e. (g : Given) → Tells (H.state host.old) g → Refuses e (play_meaning g)) }
    ensures stops { IfErr result IsStop }
    ensures failed { IsErrOf result Status.ReadFault → Rose ((H.state host.old).faults Reading) ((H.state host.new).faults Reading) }
    ensures later { (H.state host.old).faults Reading ≤ (H.state host.new).faults Reading }
    ensures nothing { WritesNothing (H.state host.old) (H.state host.new) }
    ensures others { KeepsOthers (H.state host.old) (H.state host.new) }
    ensures other { (H.state host.new).faults Writing ≡ (H.state host.old).faults Writing }
{
    let conf = read_settings(alloc, host, conf)?;
    let records = read_records(alloc, host, capture)?;
    let entries = read_entries(alloc, host, script, &conf, &records)?;
    Ok(Inputs {
        conf,
        records,
        entries,
    })
}

fn read_settings<H: Host>(alloc: Global, host: &mut H, name: &str) -> Result<Conf, Status>
    ensures state { (bytes : List ℕ) × Reads role.Conf bytes (H.state host.old) (H.state host.new) }
    ensures end { OnOk result (IsAtEnd ((H.state host.new).left role.Conf)) }
    ensures ok { IfOk result (λ c. (k : List ℕ) → (H.state host.old).left role.Conf ≡ Some k → conf_input k ≡ Ok (settings_of c)) }
    ensures err { IfErr result (λ s. (k : List ℕ) → (H.state host.old).left role.Conf ≡ Some k → Refuses s (conf_input k)) }
    ensures stops { IfErr result IsStop }
    ensures failed { IsErrOf result Status.ReadFault → Rose ((H.state host.old).faults Reading) ((H.state host.new).faults Reading) }
{
    let bytes = match load(alloc, host, Role::Conf, name, CONF_LIMIT) {
        Ok(bytes) => bytes,
        Err(error) => return Err(stop(error)),
    };
    if bytes.len() > CONF_LIMIT {
        return Err(Status::Conf(ConfRefusal::TooBig));
    }
    parse_conf(alloc, &bytes)
}

// The configuration of these bytes.
fn parse_conf(alloc: Global, bytes: &[u8]) -> Result<Conf, Status>
    ensures ok { IfOk result (λ c. settings_read (conf_of bytes.now) ≡ Ok (settings_of c)) }
    ensures err { IfErr result (λ e. Refuses e (settings_read (conf_of bytes.now))) }
    ensures stops { IfErr result IsStop }
    ensures failed { result ≢ Err Status.ReadFault }
{
    match read_conf(alloc, bytes) {
        Ok(conf) => Ok(conf),
        Err(fault) => Err(conf_status(fault)),
    }
}

fn read_records<H: Host>(alloc: Global, host: &mut H, name: &str) -> Result<Records, Status>
    ensures state { (bytes : List ℕ) × Reads role.Capture bytes (H.state host.old) (H.state host.new) }
    ensures end { OnOk result (IsAtEnd ((H.state host.new).left role.Capture)) }
    ensures ok { IfOk result (λ r. (c : List ℕ) → (H.state host.old).left role.Capture ≡ Some c → capture_input c ≡ Ok r) }
    ensures err { IfErr result (λ s. (c : List ℕ) → (H.state host.old).left role.Capture ≡ Some c → Refuses s (capture_input c)) }
    ensures stops { IfErr result IsStop }
    ensures failed { IsErrOf result Status.ReadFault → Rose ((H.state host.old).faults Reading) ((H.state host.new).faults Reading) }
{
    let bytes = match load(alloc, host, Role::Capture, name, CAPTURE_LIMIT) {
        Ok(bytes) => bytes,
        Err(error) => return Err(stop(error)),
    };
    if bytes.len() > CAPTURE_LIMIT {
        return Err(Status::Capture(CaptureRefusal::TooBig));
    }
    Records::parse(alloc, Bytes::from_vec(bytes))
}

fn read_entries<H: Host>(
    alloc: Global,
    host: &mut H,
    name: &str,
    conf: &Conf,
    records: &Records,
) -> Result<Vec<Entry>, Status>
    ensures state { (bytes : List ℕ) × Reads role.Script bytes (H.state host.old) (H.state host.new) }
    ensures end { OnOk result (IsAtEnd ((H.state host.new).left role.Script)) }
    ensures ok { IfOk result (λ e. (s : List ℕ) → (H.state host.old).left role.Script ≡ Some s → script_input (settings_of conf.now) records.now s ≡ Ok e.items) }
    ensures err { IfErr result (λ e. (s : List ℕ) → (H.state host.old).left role.Script ≡ Some s → Refuses e (script_input (settings_of conf.now) records.now s)) }
    ensures wire { IfOk result (λ e. IsWireFor (settings_of conf.now) records.now e.items) }
    ensures stops { IfErr result IsStop }
    ensures failed { IsErrOf result Status.ReadFault → Rose ((H.state host.old).faults Reading) ((H.state host.new).faults Reading) }
{
    let bytes = match load(alloc, host, Role::Script, name, SCRIPT_LIMIT) {
        Ok(bytes) => bytes,
        Err(error) => return Err(stop(error)),
    };
    if bytes.len() > SCRIPT_LIMIT {
        return Err(Status::Script(ScriptRefusal::TooBig));
    }
    parse_entries(alloc, &bytes, conf, records)
}

// The wire list of these bytes.
fn parse_entries(
    alloc: Global,
    bytes: &[u8],
    conf: &Conf,
    records: &Records,
) -> Result<Vec<Entry>, Status>
    ensures ok { IfOk result (λ e. entries_read (script_of (settings_of conf.now) (map (own_frame conf.now.mac) records.now) bytes.now) ≡ Ok e.items) }
    ensures err { IfErr result (λ e. Refuses e (entries_read (script_of (settings_of conf.now) (map (own_frame conf.now.mac) records.now) bytes.now))) }
    ensures wire { IfOk result (λ e. IsWireFor (settings_of conf.now) records.now e.items) }
    ensures stops { IfErr result IsStop }
    ensures failed { result ≢ Err Status.ReadFault }
{
    let own = match records.own(alloc, &conf.mac) {
        Ok(own) => own,
        Err(NoMemory) => return Err(Status::NoMemory),
    };
    match read_script(alloc, bytes, conf, own.as_slice()) {
        Ok(entries) => Ok(entries),
        Err(fault) => Err(script_status(fault)),
    }
}

/// The status of a role that wasn't read to its end.
pub fn stop(error: ReadError) -> Status
    ensures failed { error ≡ ReadError.Failed → result ≡ Status.ReadFault }
    ensures memory { error ≡ ReadError.Memory → result ≡ Status.NoMemory }
{
    match error {
        ReadError::Memory => Status::NoMemory,
        ReadError::Failed => Status::ReadFault,
    }
}
