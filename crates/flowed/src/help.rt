// What --help prints.
pub const HELP: &str = "flowed writes and carries the text of support mail.

Usage:
  flowed compose --width W [--dot] [--depth D | --marks] [--wire FILE] [TEXT]
  flowed carry [--lf] [--wire FILE] [BODY]
  flowed --help

compose takes a plain text from the file TEXT, or from standard input where
TEXT is left out or is '-', and makes each of its lines, ended by LF or CRLF,
one paragraph of a mail. It writes the mail's wire bytes (RFC 3676,
format=flowed) to standard output, and then, on standard error, a report:
paragraphs, wire lines, bytes on the wire, the widest line without its CRLF.

  --width W    fold lines to W bytes, from 20 to 998
  --dot        through the dot stage (RFC 5321, section 4.5.2), end mark included
  --depth D    quote each paragraph D deep, from 0 to 100; 0 where left out
  --marks      quote each paragraph as deep as its line has leading '>'; these,
               and one space behind them, are not part of the paragraph
  --wire FILE  write the wire bytes to FILE, and the report to standard output

A line that is refused is named in the report by its number, with the fault
and with what had gone down before it; nothing is written then.

carry takes a mail body with CRLF line ends from the file BODY, or from
standard input where BODY is left out or is '-'. It sends the body byte by
byte through the dot stage (RFC 5321, section 4.5.2) into memory and closes
it, sends the bytes that were taken through the undoing of the dot stage, and
compares what comes back with the body, byte for byte. Then it prints a
report: bytes in, bytes on the wire, lines, dots doubled, what came back, or
the refusal with its cause in words, its number, layer, level and place.

  --lf         turn LF line ends into CRLF first; what is CRLF stays
  --wire FILE  write the wire bytes to FILE, once all came back; with '-' they
               go to standard output, and the report to standard error

A body that ends inside a line, or in which 0D and 0A do not stand in pairs,
is refused; nothing is written then.

The exit status is 0 where the mail was composed or the body came back as it
was sent, and 1 otherwise.
";
