//! Definitions alone: what each command starts on, prints and leaves, and what is said of one that was given its words,
//! key, image and script.
//!
//! `specs/Outset.antt` is the file to read first: by key and image, what a command starts on; each command has a file
//! beside it. `specs/Opening.antt` says what a run writes and leaves at each moment, `specs/Closed.antt` what its close
//! leaves, and `specs/Given.antt` what a command tells with its status. What the words ask for, and which of these is
//! said of a task, stands in `command_task`.
#![tactic(auto)]
