//! Which call carries out a command line.
ghost use Rattle.std.specs.Prelude.{ℕ};
ghost use Rattle.tc_words.specs.declared.lines.CommandLine.{CommandLine as SomeLine};
ghost use Rattle.tc_words.specs.declared.lines.CommandLine.TheVariants.{Backup, Check, CheckScript, Loop, Octets, Report, Run, RunKept, Serve, Wall};

use crate::layers::Layer;
use crate::lines::{CommandLine, Numbers, Service, Telling};
use tc_types::{LoadKind, Moment};
use tc_world::Config;

/// What carries out command lines: one call for each kind, which gives the exit status.
pub trait Program {
    /// This command line was carried out, and this was the exit status.
    ghost carries: { Self → SomeLine → ℕ → Type 0 };

    fn run(&self, script: &str, config: Config, telling: Telling) -> u8
        ensures { carries self.now (Run script.entry config telling) result };

    fn run_kept(
        &self,
        script: &str,
        config: Config,
        database: &str,
        moment: Moment,
        telling: Telling,
    ) -> u8
        ensures { carries self.now (RunKept script.entry config database.entry moment telling) result };

    fn report(&self, database: &str, from: Moment, to: Moment) -> u8
        ensures { carries self.now (Report database.entry from to) result };

    fn backup(&self, database: &str, copy: &str) -> u8
        ensures { carries self.now (Backup database.entry copy.entry) result };

    fn wall(&self, database: &str) -> u8
        ensures { carries self.now (Wall database.entry) result };

    fn check(&self, kind: LoadKind, file: &str) -> u8
        ensures { carries self.now (Check kind file.entry) result };

    fn check_script(&self, file: &str) -> u8
        ensures { carries self.now (CheckScript file.entry) result };

    fn octets(&self, profile: Option<&str>, layer: Layer, octets: &str) -> u8
        ensures { carries self.now (Octets profile.entry layer octets.entry) result };

    fn serve(&self, database: &str, service: Service<'_>, config: Config, moment: Moment) -> u8
        ensures { carries self.now (Serve database.entry service.entry config moment) result };

    fn send(
        &self,
        database: &str,
        script: &str,
        config: Config,
        moment: Moment,
        numbers: Numbers,
        telling: Telling,
    ) -> u8
        ensures { carries self.now (Loop database.entry script.entry config moment numbers telling) result };
}

/// Carries out a command line: each desk is opened at the moment that the line has. Gives the exit status.
pub fn carry_out<P: Program>(program: &P, line: &CommandLine<'_>) -> u8
    ensures { P.carries program.now line.now result }
{
    match line {
        CommandLine::Run {
            script,
            config,
            telling,
        } => program.run(*script, *config, *telling),
        CommandLine::RunKept {
            script,
            config,
            database,
            moment,
            telling,
        } => program.run_kept(*script, *config, *database, *moment, *telling),
        CommandLine::Report { database, from, to } => program.report(*database, *from, *to),
        CommandLine::Backup { database, copy } => program.backup(*database, *copy),
        CommandLine::Wall { database } => program.wall(*database),
        CommandLine::Check { kind, file } => program.check(*kind, *file),
        CommandLine::CheckScript { file } => program.check_script(*file),
        CommandLine::Octets {
            profile,
            layer,
            octets,
        } => program.octets(*profile, *layer, *octets),
        CommandLine::Serve {
            database,
            service,
            config,
            moment,
        } => program.serve(*database, *service, *config, *moment),
        CommandLine::Loop {
            database,
            script,
            config,
            moment,
            numbers,
            telling,
        } => program.send(*database, *script, *config, *moment, *numbers, *telling),
    }
}
