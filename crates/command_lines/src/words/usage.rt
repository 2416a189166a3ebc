//! How the station program is used.

/// What the program does, its commands with their options, and its statuses.
pub const USAGE: &str = "\
usage: eip_station adapter PROFILE [options]
           serves the profile: answers its peers, takes outputs and sends inputs
       eip_station scanner PROFILE [options]
           opens a connection for each slot of the profile, sends its output and gathers its input
       eip_station plant FILE [options]
           serves all devices of the file, each at an address of its own, with their faults and scripts (docs/PROFILE.md,
           section 34)
       eip_station replay TRACE ..
           plays the files as one trace, and prints what eip_line step prints
       eip_station pcap TRACE ..
           writes the frames and datagrams of a trace as a capture file for tshark to standard output
       eip_station explain TRACE ..
           explains a trace in words, or why the files are none
       eip_station settle RECORD ..
           finds the schedule that accounts for the records of several devices, or says what is missing; a file without a
           profile continues the one before it
       eip_station world FILE [--plain]
           plays a story of devices on a simulated network, and prints what each act comes to (docs/PROFILE.md, section 37);
           over the plain engines with --plain
       eip_station eds PROFILE [VENDOR PRODUCT CATALOG]
           writes the electronic data sheet of an adapter's profile, with these names or with the numbers in their place
       eip_station identity HOST [--seconds N]
           asks the host, or all hosts of the network of which HOST is the broadcast address, which device it is, and prints
           a line for each answer that comes within N seconds (1 if it is left out)
       eip_station --help | --version
           prints this text, or the version; --help behind any command prints it too
PROFILE is a file with the profile's lines of a trace (docs/PROFILE.md, section 14). Files are regular files, of at most 16777216 bytes
(those of replay of any length).
options, whose value is the next word or follows =, as in --seconds=5:
  --address A    the IPv4 address of the sockets (the profile's if it is left out)
  --tcp PORT     the adapter's TCP port, or that of the scanner's targets (the profile's or 44818 if it is left out)
  --udp PORT     the station's UDP port (2222 if it is left out); several scanners on one address need one each, and an incarnation each
  --peer-udp PORT  the UDP port of its peers (2222 if it is left out)
  --seconds N    the station ends after N seconds
  --record FILE  writes all that the device takes and answers, and begins FILE.2, FILE.3 .. as a file is full;
                 eip_station replay FILE FILE.2 .. replays it. A plant's FILE is a folder: NAME.1.trace, NAME.2.trace .. are a device's lives
  --record-bytes N  the record ends before it has more than N bytes (1073741824 if it is left out)
  --state FILE   counts the starts there, so that no id of an earlier start is used again (PROFILE.state if it is left out)
  --script FILE  does what the lines of the file say, as a plant's script, and judges what they expect (docs/PROFILE.md, section 39)
  --report FILE  writes what came of the scripts there, in the form of JUnit
  --incarnation N  the incarnation of this start, 1 to 255, in place of counting: one that no start before had, since its ids come again with it
  --inactivity S an adapter's stream over which no message comes for S seconds ends (the profile's or 120 if it is left out, 0: none)
  --serial N     the serial number (the profile's, or the one that was drawn once and stands in the state file)
  --name TEXT    the product name, at most 32 bytes (the profile's, or the name of its file, if it is left out)
  --unicast-copies  a datagram of a multicast connection is sent to each consumer, and none is received of a group (if this is left
                 out, it is sent once, to the address of its group, unless the station's address is 127.x.x.x)
  --multicast    it is sent to the address of its group at 127.x.x.x too
  --port-2222    no UDP port is named or taken from a socket address item: the inputs go to the port of --peer-udp (if this is left
                 out, a scanner at another port names it as it opens a connection, and an adapter sends the inputs there)
  --item-ports   the port is named and taken, as if this were left out
  --lose PERCENT   so many of the datagrams that arrive are lost, to test a peer (0 if it is left out)
  --repeat PERCENT  so many arrive twice
  --reorder PERCENT  so many are overtaken by the next one
  --delay MS     each waits for 0 to MS milliseconds
  --seed N       the seed by which these are drawn (0 if it is left out)
  --no-input     does not read the standard input, and runs on without it
  --quiet        says only faults on standard error, not what streams do
  --page PORT    serves a live page of the station there, on this host alone; a line on standard error has its address
  --page-address A  serves it at this address of the host, to others too
  --page-writes  the page takes write, mode, start and stop, from who has the token in that line
  --page-host NAME  browsers reach the page by this name of the host too, as behind a proxy
The station runs until its standard input ends, and at most N seconds. Each line of the input is a call:
  write POINT HEX, read POINT, mode run, mode idle, start SLOT, stop SLOT, status, status --csv
and at a scanner, to read and to set an attribute of a target by decimal numbers, and to send any request to its message router:
  get NODE CLASS INSTANCE ATTRIBUTE, set NODE CLASS INSTANCE ATTRIBUTE HEX, explicit NODE NUMBER HEX
and at an adapter with objects of its maker's own, to answer a printed request by its number, with a general status and data:
  answer NUMBER STATUS HEX
A plant takes them behind the NAME of a device (a script all but get and set), and status or status --csv alone for all; besides
  cut, pause MS, restart [same], send NODE HEX
It prints the outcome of each call and of each event with a notice, in the lines of a trace, and for each output or
image that has changed N at MS output POINT HEX or N at MS image SLOT HEX: the number of the last event, and the time.
It waits for no reader: lines that nobody reads are lost, and a line says how many.
status: 0 done; 1 the station ended before its time, no device answered or records do not settle; 2 a wrong word; 3 a bad profile, trace, story or state; 4 an address that is none;
        5 a socket cannot be made, as for a port in use; 6 the record, the state or the report cannot be written; 7 no memory, or no thread;
        8 a script has not passed
";
