// Laws of the command line, each the contract of a function that does nothing.
ghost use Rattle.command_line.specs.Laws.{CommandsAreAllowed, PlainWordsKeepTheirMeaning};

/// Each command has names that are apart, and numbers within their limits: a budget is 1 to `LARGEST_BUDGET`, a
/// seed is below 2^64, items are 1 to `MAX_ITEMS`, periods 1 to `FIRST_VERSION_PERIODS`, the periods that
/// stay below 2^32, and the version of a certificate `OLDEST_CERTIFICATE` to `NEWEST_CERTIFICATE`.
pub fn commands_are_allowed()
    ensures { CommandsAreAllowed }
{}

/// A plain list of words means what it says by the matches too: none at all, or one of the first eight commands
/// with its names and numbers in order, and of a plan also with `--nodes` and a number at its end.
pub fn plain_words_keep_their_meaning()
    ensures { PlainWordsKeepTheirMeaning }
{}
