ghost use Rattle.short_forms.specs.Laws.{DecimalsReadBack, DurationsReadBack, PlainWordsStay, SizesReadBack, SpelledWordsRead};
ghost use Rattle.short_forms.specs.MountLaws.{LongMountsReadBack, ShortMountsAreLong, ShortMountsReadBack};
ghost use Rattle.short_forms.specs.PortLaws.{LongPortsReadBack, ShortPortsAreLong, ShortPortsReadBack};

/// The law that a duration, as a page prints it, reads back to its microseconds. Nothing runs.
pub fn durations_read_back()
    ensures { DurationsReadBack }
{}

/// The law that a size, as a page prints it, reads back to its bytes. Nothing runs.
pub fn sizes_read_back()
    ensures { SizesReadBack }
{}

/// The law that a decimal, as a page prints it, reads back to its billionths. Nothing runs.
pub fn decimals_read_back()
    ensures { DecimalsReadBack }
{}

/// The law that words that need no quotes, with a space between each two, are cut into themselves. Nothing runs.
pub fn plain_words_stay()
    ensures { PlainWordsStay }
{}

/// The law that words that are spelled in any pieces (plain, behind a backslash, in quotes), with a space between each two,
/// are cut into what they say. Nothing runs.
pub fn spelled_words_read()
    ensures { SpelledWordsRead }
{}

/// The law that each port which a short form gives is the one port of its own short form. Nothing runs.
pub fn short_ports_read_back()
    ensures { ShortPortsReadBack }
{}

/// The law that a port reads back from its long form. Nothing runs.
pub fn long_ports_read_back()
    ensures { LongPortsReadBack }
{}

/// The law that each port which a short form gives reads back from its long form. Nothing runs.
pub fn short_ports_are_long()
    ensures { ShortPortsAreLong }
{}

/// The law that a mount which a short form gives reads back from its own short form. Nothing runs.
pub fn short_mounts_read_back()
    ensures { ShortMountsReadBack }
{}

/// The law that a mount reads back from its long form. Nothing runs.
pub fn long_mounts_read_back()
    ensures { LongMountsReadBack }
{}

/// The law that a mount which a short form gives reads back from its long form. Nothing runs.
pub fn short_mounts_are_long()
    ensures { ShortMountsAreLong }
{}
