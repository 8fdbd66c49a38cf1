//! Requests about the flight, and answers.

/// The day up to the last figures.
pub const MORNING: &str = "\
    POST /flights HTTP/1.1\r\n\
    Content-Length: 85\r\n\
    \r\n\
    {\"flight\":\"XX210\",\"day\":12,\"registration\":\"DAIAB\",\"origin\":\"FRA\",\"destination\":\"ARN\"}\
    PUT /flights/XX210-12/dry/1 HTTP/1.1\r\n\
    Content-Length: 55\r\n\
    \r\n\
    {\"mass\":42000,\"index\":\"50.00000\",\"cockpit\":2,\"cabin\":4}\
    PUT /flights/XX210-12/fuel/2 HTTP/1.1\r\n\
    Content-Length: 39\r\n\
    \r\n\
    {\"taxi\":200,\"takeoff\":9000,\"trip\":6000}\
    PUT /flights/XX210-12/limits/3 HTTP/1.1\r\n\
    Content-Length: 33\r\n\
    \r\n\
    {\"takeoff\":73500,\"landing\":66000}\
    PUT /flights/XX210-12/cabin/4 HTTP/1.1\r\n\
    Content-Length: 29\r\n\
    \r\n\
    {\"zones\":[[50,4,2],[70,6,1]]}\
    PUT /flights/XX210-12/containers/5 HTTP/1.1\r\n\
    Content-Length: 39\r\n\
    \r\n\
    id,mass\n\
    AKE10001XX,1000\n\
    AKE10002XX,800\n\
    PUT /flights/XX210-12/loose/6 HTTP/1.1\r\n\
    Content-Length: 23\r\n\
    \r\n\
    {\"bulk\":[[\"51\",200,8]]}";

/// Their answers.
pub const MORNING_ANSWERS: &str = "\
    HTTP/1.1 201 Created\r\n\
    Content-Type: application/json\r\n\
    Content-Length: 30\r\n\
    \r\n\
    {\"edition\":1,\"key\":\"XX210-12\"}\
    HTTP/1.1 200 OK\r\n\
    Content-Type: application/json\r\n\
    Content-Length: 13\r\n\
    \r\n\
    {\"edition\":2}\
    HTTP/1.1 200 OK\r\n\
    Content-Type: application/json\r\n\
    Content-Length: 13\r\n\
    \r\n\
    {\"edition\":3}\
    HTTP/1.1 200 OK\r\n\
    Content-Type: application/json\r\n\
    Content-Length: 13\r\n\
    \r\n\
    {\"edition\":4}\
    HTTP/1.1 200 OK\r\n\
    Content-Type: application/json\r\n\
    Content-Length: 13\r\n\
    \r\n\
    {\"edition\":5}\
    HTTP/1.1 200 OK\r\n\
    Content-Type: application/json\r\n\
    Content-Length: 13\r\n\
    \r\n\
    {\"edition\":6}\
    HTTP/1.1 200 OK\r\n\
    Content-Type: application/json\r\n\
    Content-Length: 13\r\n\
    \r\n\
    {\"edition\":7}";

/// A plan is asked for.
pub const PLAN: &str = "\
    POST /flights/XX210-12/plan/7 HTTP/1.1\r\n\
    Content-Length: 0\r\n\
    \r\n";

/// A flight that there is not is asked for.
pub const OTHER_FLIGHT: &str = "\
    GET /flights/XX210-13 HTTP/1.1\r\n\
    Content-Length: 0\r\n\
    \r\n";

/// Its answer.
pub const NO_FLIGHT: &str = "\
    HTTP/1.1 404 Not Found\r\n\
    Content-Type: application/json\r\n\
    Content-Length: 21\r\n\
    \r\n\
    {\"error\":\"no flight\"}";

/// The answer where there is no room for an entry.
pub const FULL: &str = "\
    HTTP/1.1 507 Insufficient Storage\r\n\
    Content-Type: application/json\r\n\
    Content-Length: 16\r\n\
    \r\n\
    {\"error\":\"full\"}";
