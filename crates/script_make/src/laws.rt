// A law of the scripts that seeds give, as a function that does nothing and says it.
ghost use Rattle.std.specs.Prelude.{◌≡◌, ℕ, Ok};
ghost use Rattle.mem_base.specs.script.Scripts.{script_of};
ghost use Rattle.script_make.specs.Texts.{script_of_seed, text_of_seed};

/// What is written of a seed is a script, no longer than a script may be: it reads as the commands that were drawn, one a line.
pub fn seeds_give_scripts()
    ensures reads { (seed : ℕ) → script_of (text_of_seed seed) ≡ Ok (script_of_seed seed) }
{}
