//! Laws of the definitions. Each is the contract of a function that does nothing.

ghost use Rattle.std.specs.Prelude.{◌≡◌};
ghost use Rattle.std.specs.Prelude.{Bool, Option};
ghost use Rattle.ha_value.specs.declared.value.EntityId.{EntityId};
ghost use Rattle.ha_config.specs.Fair.{IsFairAmong, as_read, prepared, put_among};
ghost use Rattle.ha_config.specs.Words.{Text};
ghost use Rattle.ha_config.specs.declared.command.Cmd.{Cmd};
ghost use Rattle.ha_config.specs.declared.config.Config.{Config};
ghost use Rattle.flow_printed.specs.Printed.{IsFairButForName, IsPrintOf, IsPrintOfLine, IsSized};
ghost use Rattle.flow_printed.specs.declared.line.PrintedLine.{PrintedLine};

/// A text is the print of one command at most.
pub fn one_command(text: &[u8])
    ensures { (c d : Cmd) → IsPrintOf text.now c → IsPrintOf text.now d → c ≡ d }
{}

/// A text is the print of one line at most, of lines whose numbers have the sizes of their types.
pub fn one_line(text: &[u8])
    ensures { (l m : PrintedLine) → IsSized l → IsSized m → IsPrintOfLine text.now l → IsPrintOfLine text.now m → l ≡ m }
{}

/// A command that is fair somewhere is, as it is read, fair but for whether its automation is there, or its entity is a helper.
pub fn fair_anywhere()
    ensures { (has : Text → Bool) (helps : EntityId → Bool) (more : Bool) (c : Cmd) → IsFairAmong has helps more c → IsFairButForName (as_read c) }
{}

/// What is put for a command that is fair but for its automation or its helper is fair, whatever a Reload's text is read as.
pub fn fair_once_put()
    ensures { (read : Text → Option Config) (has : Text → Bool) (helps : EntityId → Bool) (more : Bool) (c : Cmd) → IsFairButForName c
        → IsFairAmong has helps more (put_among has helps more (prepared read c)) }
{}
