ghost use Rattle.serve_lines.specs.Laws.{PrintedWordsAreCommands};

/// Law: the word with which an order is printed, as `ack` or `shelve`, is that order's command. (It does nothing when it is called.)
#[tactic(auto, unfolding(crate::specs::Commands::command_in, crate::specs::Commands::verb_named))]
pub fn printed_words_are_commands()
    ensures { PrintedWordsAreCommands }
{}
