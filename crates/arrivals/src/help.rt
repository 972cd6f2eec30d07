/// What `help` and `--help` print.
pub const HELP: &str = "# Arrivals: a sheet of 99 berths over a table of time zones.
# One line is one call; each call gets one answer line. Empty lines and lines that begin with # are passed over.
# table PATH            load a table of zones from a file
# table hex:0100...     the same, with the bytes written in hexadecimal
# open                  open an empty sheet over the table that was given last
# set BERTH ZONE DATE [TIME] [exact] [offset=S] [policy=P] [disambiguation=D] [match=minutes]
#                       put an arrival into a berth, 1 to 99; without a time, the start of the day
#                       ZONE is named:N, a zone of the table, or fixed:M, an offset in minutes
#                       DATE is YEAR-MONTH-DAY, TIME is HH:MM, HH:MM:SS or HH:MM:SS.F
#                       exact says that the time is in UTC; offset=S is in seconds
#                       P is use, prefer, ignore or reject; D is compatible, earlier, later or reject
# read BERTH            the arrival in a berth, with its local date and time
# clear BERTH           empty a berth
# help                  print this text";
