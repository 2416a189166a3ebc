//! What an adapter answers to the services of its objects.

ghost use Rattle.object_laws.specs.Counts.{RequestsAreCountedOnce};
ghost use Rattle.object_laws.specs.Packets.{PacketsAreTheirServices};
ghost use Rattle.object_laws.specs.Routes.{RoutesServeAlike};
ghost use Rattle.object_laws.specs.Services.{AttributesReadBack, GetsChangeNothing, MessagesConnectNothing, NothingIsListed, ObjectsAreListed, OwnServicesAskAlone, ResetsChangeNothing, ResetsAreReported};

/// One law of routes: a request to an object that an adapter serves itself is served alike over no stream, by SendRRData over a
/// stream, and in a message of a class 3 connection. What is served is one value: the reply, the notices and the table; the route
/// says where the reply goes, and a connection keeps it. The laws of services below speak of all three.
///
/// Volume 1, chapter 2, message router request; Volume 2, chapter 2, SendRRData and SendUnitData.
pub fn routes_serve_alike()
    ensures { RoutesServeAlike }
{}

/// A packet of services equals its services one after another: each reply of a Multiple_Service_Packet is the reply to its request
/// alone, which reports nothing and leaves the adapter as it is. The law speaks of packets whose requests are to objects that the adapter
/// serves itself, none of them a Reset, a packet or an Unconnected_Send, which a packet refuses.
///
/// Volume 1, appendix A, Multiple_Service_Packet service.
pub fn packets_are_their_services()
    ensures { PacketsAreTheirServices }
{}

/// Each request that an adapter serves itself is counted once, over every route, by what it asks and by the reply that goes out for it:
/// the counters of requests are those of before and one more, or the same, if it asked for no connection. What the host has counted
/// stays.
///
/// Volume 1, chapter 3, Connection Manager object, attributes 1 to 7.
pub fn requests_are_counted_once()
    ensures { RequestsAreCountedOnce }
{}

/// A message of a class 3 connection opens and closes no connection, whoever sends it: one such request that was refused is counted, all
/// else of an adapter's table but the connection's last message stays, and nothing is reported.
///
/// Volume 1, chapter 3, Connection Manager services and transport class 3.
pub fn messages_connect_nothing()
    ensures { MessagesConnectNothing }
{}

/// Get_Attribute_Single and Get_Attributes_All leave the table of an adapter as it is, and report nothing: over a stream and over
/// none, whether they are answered or refused. So it is of every object but those of the maker's own, whose services the application
/// answers.
///
/// Volume 1, appendix A, common services.
pub fn gets_change_nothing()
    ensures { GetsChangeNothing }
{}

/// A Reset, and every other service of an object that an adapter serves itself, leaves its table as it is.
///
/// - `stays`: the answer reports one reset of type 0 or 1, or nothing.
/// - `reported`: a Reset of type 0 or 1 of the Identity object of a device that is described is answered with success and reported,
///   unless an output has an owner, over every route. It speaks of whole tables.
///
/// Volume 1, chapter 5, Identity object, Reset service.
pub fn resets_are_reported()
    ensures stays { ResetsChangeNothing }
    ensures reported { ResetsAreReported }
{}

/// Each attribute of each instance that an adapter has is read back: Get_Attribute_Single of its class, instance and number is
/// answered with exactly its bytes, over every route, and nothing changes. The law speaks of whole tables.
///
/// Volume 1, appendix A, Get_Attribute_Single service.
pub fn attributes_read_back()
    ensures { AttributesReadBack }
{}

/// A tool that reads attribute 1 of the Message Router sees each class that it can ask, and no other.
///
/// - `listed`: of a described device the classes are those of the maker's own objects and those that have an instance 0.
/// - `none`: a device without a description refuses the request, as it has no such object.
///
/// Volume 1, chapter 5, Message Router object, attribute 1.
pub fn objects_are_listed()
    ensures listed { ObjectsAreListed }
    ensures none { NothingIsListed }
{}

/// A request to an object of the maker's own, over every route, leaves all of an adapter's table but the requests that wait for its
/// application and the last message of the class 3 connection that brought it, and reports nothing.
///
/// Volume 1, chapter 2, message router request.
pub fn own_services_ask_alone()
    ensures { OwnServicesAskAlone }
{}
