// Laws of the definitions, each as a function that does nothing and says it.
ghost use Rattle.std.specs.Prelude.{◌≡◌, ◌≤◌, List, Ok, length};
ghost use Rattle.mem_base.specs.script.Spelling.{Text};
ghost use Rattle.mem_base.specs.script.Scripts.{Line, most_text, script_of};
ghost use Rattle.mem_base.specs.script.Printing.{numbered, printed};

/// What is printed of a script has the same commands, where it is no longer than a script may be.
pub fn printed_scripts_read_the_same()
    ensures again { (text : Text) (lines : List Line) → script_of text ≡ Ok lines → length (printed lines) ≤ most_text
        → script_of (printed lines) ≡ Ok (numbered 1 lines) }
{}
