// How the tool is used: the help page, and a line for each command.

use tool_command::Command;

// How the tool is used where no command is named.
pub const USAGE: &str = "usage: pay check | make | close | join | part | help; pay help says more";

// How one command is used.
pub fn usage(command: Command) -> &'static str {
    match command {
        Command::Check => "usage: pay check DDMMYY FILE",
        Command::Make => "usage: pay make VALUES DRAFT",
        Command::Close => "usage: pay close DDMMYY DRAFT OUT",
        Command::Join => "usage: pay join DDMMYY FIRST SECOND OUT",
        Command::Part => "usage: pay part DDMMYY FILE K OUT1 OUT2",
        Command::Help => "usage: pay help",
    }
}

// The help page.
pub const PAGE: &str = "\
pay check DDMMYY FILE               Is the file as the clearing house wants it?
pay make  VALUES DRAFT              Makes the records of a draft from values.
pay close DDMMYY DRAFT OUT          Adds the end records 88 and 89 to a draft.
pay join  DDMMYY FIRST SECOND OUT   Makes one file of two.
pay part  DDMMYY FILE K OUT1 OUT2   Makes two of one: OUT1 gets K assignments.
pay help                            Prints this page.

DDMMYY is the process day: 011025 is 1 October 2025.

VALUES has a line for each record, as a spreadsheet saves it: CSV with
semicolons, in ISO 8859-1. Empty lines and lines with # first are passed over.
  10;sender;number
  20;service;agreement;assignment;account
  30;service;type;transaction;DDMMYY;payee or payer;amount;KID
  31;service;type;transaction;short name;own reference;the other's reference
  40;service;type;transaction;name;postal code;postal filler;area
  41;service;type;transaction;first address line;second address line;country
  49;service;type;transaction;line;column;text
  50;service;type;transaction;KID;amount
An amount is in hundredths of a krone: 80000 is 800.00 kroner.
A text with line 0 or column 0 has no place: the notification leaves it out.

The first line of an answer is made for programs:
  accepted 1 1 6 80000 011125       assignments, transactions, records, sum in
                                    hundredths of a krone, first date
  made 4                            records
  parted
  refused 18 5 7                    number, record (of values the line), field;
                                    when joining also the file, 1 or 2 (0: the
                                    joined one)
Behind a refusal stands, for people, what is wrong and where.

The status is 0 for accepted, made and parted, 1 for refused, 2 for wrong usage
or trouble with a file. An output takes its name only when it is whole; else
nothing has changed. It may have the name of an input.";
